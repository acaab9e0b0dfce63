// Reading and replacing rows.
ghost use Rattle.std.specs.Prelude.{◌≡◌, ℕ, ◌<◌, replicate, Some, None, slice_set};
ghost use Rattle.jobs.specs.Sets.{width};
ghost use Rattle.jobs.specs.declared.refusal.Refusal.TheVariants.{BadRow};
ghost use Rattle.jobs.specs.Refusals.{Answered, unless};
ghost use Rattle.jobs.specs.Words.{Exactly};
ghost use Rattle.facilities.specs.Orders.{Ends};
ghost use Rattle.facilities.specs.Rows.{row_list, row, in_day, WindowOf, Fits};

use crate::rows::{HOURS, Rows, Window};
use jobs::refusal::Refusal;
use jobs::set::JOBS;

impl<R: Copy> Rows<R> {
    // No job has a row.
    pub(crate) fn new() -> Self
        ensures { row_list result ≡ replicate width None }
    {
        Rows { held: [None; JOBS] }
    }

    // The row of the job, if it has one.
    pub(crate) fn get(&self, job: u32) -> Option<R>
        ensures { result ≡ row (row_list self.now) job }
    {
        *self.held.get(job as usize)?
    }

    // The row takes the place of the job's old one.
    pub(crate) fn put(&mut self, job: u32, row: R)
        requires { job < width }
        ensures { row_list self.new ≡ slice_set (row_list self.old) job (Some row) }
    {
        self.held[job as usize] = Some(row);
    }
}

impl Window {
    // The window of these hours, if they go together.
    pub(crate) fn of(release: u32, takes: u32, due: u32) -> Result<Window, Refusal>
        ensures { Answered (unless (in_day release takes due) BadRow None) result (WindowOf release takes due) }
    {
        if takes == 0 || due > HOURS || takes > due || release > due - takes {
            return Err(Refusal::BadRow);
        }
        Ok(Window {
            release: release as u16,
            takes: takes as u16,
            due: due as u16,
        })
    }

    // The hour from which the job may run.
    pub(crate) fn release(&self) -> u16
        ensures { result ≡ self.now.release }
    {
        self.release
    }

    // How many hours it takes.
    pub(crate) fn takes(&self) -> u16
        ensures { result ≡ self.now.takes }
    {
        self.takes
    }

    // The hour by which it ends.
    pub(crate) fn due(&self) -> u16
        ensures { result ≡ self.now.due }
    {
        self.due
    }

    // Whether the job may start at that hour, and then ends in time.
    pub(crate) fn fits(&self, start: u16) -> bool
        ensures { Exactly result (Fits self.now start) }
    {
        self.release <= start && start <= self.due - self.takes
    }

    // The hour at which the job ends if it starts as early as it can from this hour on. None if that is too late.
    pub(crate) fn end_from(&self, hour: u16) -> Option<u16>
        ensures { Ends self.now hour result }
    {
        let start = hour.max(self.release);
        if !self.fits(start) {
            return None;
        }
        Some(start + self.takes)
    }
}
