// The prices in force and the barred pairs, for so many jobs and places. Offers past these keep what was set, for other
// numbers of jobs and places.
ghost use Rattle.std.specs.Prelude.{◌≡◌, ℕ, ◌≤◌, length};
ghost use Rattle.jobs.specs.Sets.{width};
ghost use Rattle.master.specs.Refused.{most_places};

use crate::offer::Offer;
use jobs::set::JOBS;

pub mod calls;
pub mod sizes;

#[derive(Drop)]
pub struct Tariff {
    jobs: u8,
    places: u8,
    offers: [Offer; JOBS],
    ghost some_jobs: { 1 ≤ jobs },
    ghost few_jobs: { jobs ≤ width },
    ghost some_places: { 1 ≤ places },
    ghost few_places: { places ≤ most_places },
    ghost wide: { length offers ≡ width },
}
