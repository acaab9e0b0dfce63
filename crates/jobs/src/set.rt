// Sets of jobs, each a number in which bit i stands for job i.
ghost use Rattle.std.specs.Prelude.{ℕ};

pub mod calls;

// How many jobs there are. Their numbers are 0 to JOBS - 1.
pub const JOBS: usize = 16;

#[derive(Clone, Copy, PartialEq, Eq, Debug, Default)]
pub struct JobSet {
    bits: u16,
}
