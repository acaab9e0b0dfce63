// Start hours for the jobs of a set, given one after the other from the lowest job.
ghost use Rattle.jobs.specs.Lists.{listed};
ghost use Rattle.jobs.specs.Sets.{bits, jobs_of};
ghost use Rattle.facilities.specs.Rows.{row_list};
ghost use Rattle.facilities.specs.Timetables.{Sound};
ghost use Rattle.facilities.specs.Usages.{table};
ghost use Rattle.facilities.specs.TimetablesLemmas.{sound_prop};

use crate::rows::Rows;
use crate::stand::row::StandRow;
use crate::stand::usage::Usage;
use arrayvec::ArrayVec;
use jobs::list::JobList;
use jobs::set::{JOBS, JobSet};

pub mod calls;

// The jobs of the set are to run on a stand with this supply and these rows.
#[derive(Drop)]
pub(crate) struct Demand {
    supply: u32,
    rows: Rows<StandRow>,
    set: JobSet,
}

// The hours given so far, and what is drawn then in each hour of the day. Jobs and starts are two lists, since the
// search takes and gives back starts, and the jobs stay.
#[derive(Drop)]
pub(crate) struct Timetable {
    demand: Demand,
    jobs: JobList,
    starts: ArrayVec<u16, JOBS>,
    usage: Usage,
    ghost sound: { Sound (row_list demand.rows) demand.supply (jobs_of (bits demand.set)) (listed jobs) starts.items (table usage) } by { sound_prop (row_list demand.rows) demand.supply (jobs_of (bits demand.set)) (listed jobs) starts.items (table usage) },
}
