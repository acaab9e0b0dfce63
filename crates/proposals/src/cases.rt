// Random tariffs and cuts, for as many jobs and places as there can be.
use jobs::refusal::Refusal;
use jobs::set::{JOBS, JobSet};
use master::table::CutTable;
use master::tariff::Tariff;
use xorshift::Random;

const PLACES: u32 = master::PLACES as u32;

// Prices are below this.
const PRICES: u32 = 1000;

// How often a cut is tried at most, since one that is covered does not count.
const CUT_TRIES: u32 = 20_000;

// How often a job is drawn at most, since one that was drawn before does not count.
const JOB_TRIES: u32 = 64;

pub(crate) fn random_tariff(random: &mut Random) -> Result<Tariff, Refusal> {
    let mut tariff = Tariff::full();
    for job in 0..JOBS as u32 {
        for place in 0..PLACES {
            tariff.set_price(job, place, random.below(PRICES))?;
        }
    }
    Ok(tariff)
}

// Two to four jobs.
fn random_set(random: &mut Random) -> Result<JobSet, Refusal> {
    let wanted = 2 + random.below(3);
    let mut set = JobSet::empty();
    for _ in 0..JOB_TRIES {
        if set.len() >= wanted as usize {
            break;
        }
        set = set.with(random.below(JOBS as u32))?;
    }
    Ok(set)
}

pub(crate) fn random_cuts(random: &mut Random, wanted: usize) -> Result<CutTable, Refusal> {
    let mut cuts = CutTable::new();
    for _ in 0..CUT_TRIES {
        if cuts.len() >= wanted {
            break;
        }
        let place = random.below(PLACES);
        let set = random_set(random)?;
        let _ = cuts.add(place as u8, set)?;
    }
    Ok(cuts)
}
