// The bench, on which jobs run one after the other.
ghost use Rattle.std.specs.Prelude.{◌≡◌, replicate, None};
ghost use Rattle.jobs.specs.Sets.{width};
ghost use Rattle.facilities.specs.Benches.{bench_family, RowEntered};
ghost use Rattle.facilities.specs.Rows.{row_list, bench_refusal, Entry};
ghost use Rattle.facilities.specs.Schedules.{part_schedule};

use crate::bench::line::Line;
use crate::facility::Facility;
use crate::rows::{Rows, Window};
use crate::search::first;
use jobs::refusal::Refusal;
use jobs::set::{JOBS, JobSet};

mod line;

#[derive(Drop)]
pub struct Bench {
    rows: Rows<Window>,
}

impl Bench {
    // A bench with no row.
    pub fn new() -> Bench
        ensures { row_list result.rows ≡ replicate width None }
    {
        Bench { rows: Rows::new() }
    }

    // Enters the row of a job, in place of the old one. Its numbers come one by one, as they are typed.
    pub fn row(&mut self, job: u32, release: u32, takes: u32, due: u32) -> Result<(), Refusal>
        ensures { Entry (bench_refusal job release takes due) result self.old self.new (RowEntered job release takes due self.old self.new) }
    {
        if job >= JOBS as u32 {
            return Err(Refusal::NoSuchJob);
        }
        let window = Window::of(release, takes, due)?;
        self.rows.put(job, window);
        Ok(())
    }
}

impl Facility for Bench {
    ghost family = { bench_family };

    ghost parts = { λ f part whole p m. part_schedule (row_list f.rows) part whole p m };

    fn verdict(&self, set: JobSet) -> bool {
        let mut line = Line::new(self.rows, set);
        first(&mut line).is_some()
    }
}
