// A line of jobs on the bench, which grows by the next job to run.
ghost use Rattle.std.specs.Prelude.{◌≡◌, [], length};
ghost use Rattle.jobs.specs.Sets.{width, bits, jobs_of};
ghost use Rattle.facilities.specs.Lines.{batch_of, Lined, After, Leads, chosen, morning};
ghost use Rattle.facilities.specs.Rows.{row_list};
ghost use Rattle.facilities.specs.LinesLemmas.{lined_front, leads_prop};
ghost use Rattle.std.proofs.Common.{rules};

use crate::rows::{Rows, Window};
use crate::trial::Trial;
use arrayvec::ArrayVec;
use jobs::set::{JOBS, JobSet};

// The jobs to be run, and the rows of all jobs.
#[derive(Clone, Copy)]
pub(crate) struct Batch {
    rows: Rows<Window>,
    set: JobSet,
}

// Which jobs are left to run, and at which hour.
#[derive(Clone, Copy, Default)]
pub(crate) struct Moment {
    left: JobSet,
    hour: u16,
}

// A job that has run, and the moment before it.
#[derive(Clone, Copy, Default)]
pub(crate) struct Step {
    job: u16,
    before: Moment,
}

// The steps so far, and the moment to which they lead.
#[derive(Drop)]
pub(crate) struct Line {
    batch: Batch,
    steps: ArrayVec<Step, JOBS>,
    at: Moment,
    ghost leads: { Leads (row_list batch.rows) (morning batch.set) steps.items at } by { leads_prop (row_list batch.rows) (morning batch.set) steps.items at },
}

impl Moment {
    // The moment at which this job has run too, if it can be the next.
    fn after(self, rows: &Rows<Window>, job: u32) -> Option<Moment>
        ensures { After (row_list rows.now) self job result }
    {
        if !self.left.contains(job) {
            return None;
        }
        let hour = rows.get(job)?.end_from(self.hour)?;
        let left = self.left.without(job);
        Some(Moment { left, hour })
    }
}

impl Line {
    // No job has run.
    pub(crate) fn new(rows: Rows<Window>, set: JobSet) -> Line
        ensures batch { result.batch ≡ batch_of rows set }
        ensures fresh { chosen result.steps.items ≡ [] }
    {
        Line {
            batch: Batch { rows, set },
            steps: ArrayVec::new(),
            at: Moment { left: set, hour: 0 },
        }
    }
}

impl Trial for Line {
    type Problem = Batch;

    ghost problem = { λ l. l.batch };

    ghost taken = { λ l. chosen l.steps.items };

    ghost levels = { λ b. length (jobs_of (bits b.set)) };

    ghost choices = { λ _. width };

    ghost allowed = { λ b xs. Lined (row_list b.rows) (bits b.set) 0 xs };

    ghost none = { Prim.search rules };

    ghost fronts = { λ b xs ys l. lined_front (row_list b.rows) (bits b.set) 0 xs ys l };

    fn depth(&self) -> usize {
        self.batch.set.len()
    }

    fn width(&self) -> u16 {
        JOBS as u16
    }

    fn take(&mut self, choice: u16) -> bool {
        let Some(next) = self.at.after(&self.batch.rows, u32::from(choice)) else {
            return false;
        };
        let step = Step {
            job: choice,
            before: self.at,
        };
        self.steps.push(step);
        self.at = next;
        true
    }

    fn undo(&mut self) {
        let Some(step) = self.steps.pop() else {
            return;
        };
        self.at = step.before;
    }
}
