// The jobs of a set as a list. It is an array with its length and no vector, since lists are copied.
ghost use Rattle.std.specs.Prelude.{◌≤◌};

use crate::set::JOBS;

pub mod calls;

#[derive(Clone, Copy)]
pub struct JobList {
    jobs: [u32; JOBS],
    len: usize,
    ghost few: { len ≤ 16 },
}
