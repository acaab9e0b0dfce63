// Setting and reading prices and bars.
ghost use Rattle.std.specs.Prelude.{◌≡◌, Some};
ghost use Rattle.jobs.specs.Refusals.{Answered};
ghost use Rattle.master.specs.Refused.{tariff_refusal, pair_refusal, price_refusal, IfRefused, if_accepted};
ghost use Rattle.master.specs.Tariffs.{job_count, place_count, terms_of, price_of, barred_in, SetsTerms, Blank, PricedAt, BarredAt};

use crate::offer::{PLACES, TOP_PRICE, Terms};
use crate::pair::Pair;
use crate::tariff::Tariff;
use jobs::refusal::Refusal;
use jobs::set::JOBS;

// Refuses numbers of jobs or places that are out of range.
pub fn check_sizes(jobs: u32, places: u8) -> Result<(), Refusal>
    ensures { Answered (tariff_refusal jobs places) result (λ _. Unit {0}) }
{
    if jobs < 1 || jobs > JOBS as u32 {
        return Err(Refusal::JobsOutOfRange);
    }
    if places < 1 || places > PLACES as u8 {
        return Err(Refusal::PlacesOutOfRange);
    }
    Ok(())
}

impl Tariff {
    // At first every price is 0 and every pair permitted.
    pub fn new(jobs: u32, places: u8) -> Result<Tariff, Refusal>
        ensures { Answered (tariff_refusal jobs places) result (Blank jobs places) }
    {
        check_sizes(jobs, places)?;
        Ok(Tariff::blank(jobs as u8, places))
    }

    pub fn jobs(&self) -> u8
        ensures { result ≡ job_count self.now }
    {
        self.jobs
    }

    pub fn places(&self) -> u8
        ensures { result ≡ place_count self.now }
    {
        self.places
    }

    // The pair of these two, where there is such a pair.
    fn pair(&self, job: u32, place: u32) -> Result<Pair, Refusal>
        ensures { Answered (pair_refusal (job_count self.now) (place_count self.now) job place) result (λ pair. (pair.job ≡ job) × (pair.place ≡ place)) }
    {
        if job >= self.jobs as u32 {
            return Err(Refusal::NoSuchJob);
        }
        if place >= self.places as u32 {
            return Err(Refusal::NoSuchPlace);
        }
        Ok(Pair {
            job: job as usize,
            place: place as u8,
        })
    }

    fn terms(&self, pair: Pair) -> Terms
        ensures { terms_of self.now pair.job pair.place ≡ Some result }
    {
        self.offers[pair.job].at(pair.place as usize)
    }

    fn set_terms(&mut self, pair: Pair, terms: Terms)
        ensures { SetsTerms self.old pair.job pair.place terms self.new }
    {
        self.offers[pair.job] = self.offers[pair.job].with(pair.place as usize, terms);
    }

    pub fn set_price(&mut self, job: u32, place: u32, amount: u32) -> Result<(), Refusal>
        ensures set { Answered (price_refusal (job_count self.old) (place_count self.old) job place amount) result (λ _. PricedAt self.old job place amount self.new) }
        ensures refused { IfRefused result (self.new ≡ self.old) }
    {
        let pair = self.pair(job, place)?;
        if amount > TOP_PRICE {
            return Err(Refusal::AmountTooLarge);
        }
        let mut terms = self.terms(pair);
        terms.price = amount;
        self.set_terms(pair, terms);
        Ok(())
    }

    // Bars the pair, or permits it again.
    pub fn set_bar(&mut self, job: u32, place: u32, barred: bool) -> Result<(), Refusal>
        ensures set { Answered (pair_refusal (job_count self.old) (place_count self.old) job place) result (λ _. BarredAt self.old job place barred self.new) }
        ensures refused { IfRefused result (self.new ≡ self.old) }
    {
        let pair = self.pair(job, place)?;
        let mut terms = self.terms(pair);
        terms.barred = barred;
        self.set_terms(pair, terms);
        Ok(())
    }

    // The price of the pair.
    pub(crate) fn price_at(&self, pair: Pair) -> u32
        ensures { result ≡ price_of self.now pair.job pair.place }
    {
        self.terms(pair).price
    }

    // Whether the pair is barred.
    pub(crate) fn barred_at(&self, pair: Pair) -> bool
        ensures { result ≡ barred_in self.now pair.job pair.place }
    {
        self.terms(pair).barred
    }

    // The price in force for a pair, if there is such a pair.
    pub fn price(&self, job: u32, place: u32) -> Option<u32>
        ensures { result ≡ if_accepted (pair_refusal (job_count self.now) (place_count self.now) job place) (price_of self.now job place) }
    {
        let pair = self.pair(job, place).ok()?;
        Some(self.price_at(pair))
    }

    // Whether a pair is barred, if there is such a pair.
    pub fn is_barred(&self, job: u32, place: u32) -> Option<bool>
        ensures { result ≡ if_accepted (pair_refusal (job_count self.now) (place_count self.now) job place) (barred_in self.now job place) }
    {
        let pair = self.pair(job, place).ok()?;
        Some(self.barred_at(pair))
    }
}
