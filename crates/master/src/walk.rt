// The search: the places of the first `depth` jobs, the next place to try for the job after them,
// the total before each job, the jobs at each place, and the best row found.
// Places and totals are two arrays, since a row that was found takes the places whole.
ghost use Rattle.std.specs.Prelude.{◌≡◌, ◌<◌, length};
ghost use Rattle.jobs.specs.Sets.{width};

use crate::groups::Groups;
use crate::priced::Priced;
use jobs::set::JOBS;

pub mod moves;

#[derive(Drop)]
pub struct Walk {
    pub row: [u8; JOBS],
    pub totals: [u32; JOBS],
    pub groups: Groups,
    pub depth: usize,
    pub best: Option<Priced>,
    ghost row_long: { length row ≡ width },
    ghost totals_long: { length totals ≡ width },
    ghost deep: { depth < width },
}
