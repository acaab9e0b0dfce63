// A timetable is a trial: a level for each job of the set, and at each a choice of the hour at which the job starts.
ghost use Rattle.std.specs.Prelude.{◌≡◌, [], length, slice_get, option_and_then};
ghost use Rattle.jobs.specs.Lists.{listed};
ghost use Rattle.jobs.specs.Sets.{bits, jobs_of};
ghost use Rattle.facilities.specs.Draws.{Overdrawn};
ghost use Rattle.facilities.specs.Rows.{row, row_list, hours};
ghost use Rattle.facilities.specs.Timetables.{demand_of, Allowed};
ghost use Rattle.facilities.specs.TimetablesLemmas.{allowed_front};
ghost use Rattle.std.proofs.Common.{rules};

use crate::rows::{HOURS, Rows};
use crate::stand::row::StandRow;
use crate::stand::timetable::{Demand, Timetable};
use crate::stand::usage::Usage;
use crate::trial::Trial;
use arrayvec::ArrayVec;
use jobs::list::JobList;
use jobs::set::JobSet;

impl Timetable {
    // No job has an hour yet.
    pub(crate) fn new(supply: u32, rows: Rows<StandRow>, set: JobSet) -> Timetable
        requires { Overdrawn supply (row_list rows) → ⊥ }
        ensures demand { result.demand ≡ demand_of supply rows set }
        ensures fresh { result.starts.items ≡ [] }
    {
        Timetable {
            demand: Demand { supply, rows, set },
            jobs: set.jobs(),
            starts: ArrayVec::new(),
            usage: Usage::new(),
        }
    }
}

impl Demand {
    // The row of the job at a level, if there is such a job and it has one.
    fn row_at(&self, jobs: &JobList, level: usize) -> Option<StandRow>
        ensures { result ≡ option_and_then (row (row_list self.now.rows)) (slice_get (listed jobs.now) level) }
    {
        let job = jobs.as_slice().get(level)?;
        self.rows.get(*job)
    }
}

impl Trial for Timetable {
    type Problem = Demand;

    ghost problem = { λ t. t.demand };

    ghost taken = { λ t. t.starts.items };

    ghost levels = { λ d. length (jobs_of (bits d.set)) };

    ghost choices = { λ _. hours };

    ghost allowed = { λ d xs. Allowed (row_list d.rows) d.supply (jobs_of (bits d.set)) xs };

    ghost none = { Prim.search rules };

    ghost fronts = { λ d xs ys a. allowed_front (row_list d.rows) d.supply (jobs_of (bits d.set)) xs ys a };

    fn depth(&self) -> usize {
        self.jobs.len()
    }

    fn width(&self) -> u16 {
        HOURS as u16
    }

    fn take(&mut self, choice: u16) -> bool {
        let Some(row) = self.demand.row_at(&self.jobs, self.starts.len()) else {
            return false;
        };
        if !row.fits(choice) {
            return false;
        }
        if !self.usage.allows(&row, choice, self.demand.supply) {
            return false;
        }
        self.usage.fill(&row, choice);
        self.starts.push(choice);
        true
    }

    fn undo(&mut self) {
        let Some(start) = self.starts.pop() else {
            return;
        };
        let Some(row) = self.demand.row_at(&self.jobs, self.starts.len()) else {
            return;
        };
        self.usage.free(&row, start);
    }
}
