// Tariffs for other numbers of jobs and places.
ghost use Rattle.std.specs.Prelude.{◌≡◌, ℕ, None};
ghost use Rattle.jobs.specs.Refusals.{Answered};
ghost use Rattle.jobs.specs.Sets.{width};
ghost use Rattle.master.specs.Refused.{most_places, tariff_refusal};
ghost use Rattle.master.specs.Tariffs.{Blank, Resized};

use crate::offer::{Offer, PLACES};
use crate::tariff::Tariff;
use crate::tariff::calls::check_sizes;
use jobs::refusal::Refusal;
use jobs::set::JOBS;

impl Tariff {
    // At first every price is 0 and every pair permitted.
    pub(crate) fn blank(jobs: u8, places: u8) -> Tariff
        requires { tariff_refusal jobs places ≡ None }
        ensures { Blank jobs places result }
    {
        Tariff {
            jobs,
            places,
            offers: [Offer::free(); JOBS],
        }
    }

    // For as many jobs and places as there can be, with nothing set.
    pub fn full() -> Tariff
        ensures { Blank width most_places result }
    {
        Tariff::blank(JOBS as u8, PLACES as u8)
    }

    // The same prices and bars, for so many jobs and places.
    pub fn sized(&self, jobs: u32, places: u8) -> Result<Tariff, Refusal>
        ensures { Answered (tariff_refusal jobs places) result (Resized self.now jobs places) }
    {
        check_sizes(jobs, places)?;
        Ok(Tariff {
            jobs: jobs as u8,
            places,
            offers: self.offers,
        })
    }
}
