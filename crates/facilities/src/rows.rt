// A facility's rows, one for each job, at first absent.
ghost use Rattle.std.specs.Prelude.{◌≡◌, ℕ, ◌+◌, ◌<◌, ◌≤◌};

use jobs::set::JOBS;
use std::alloc::AllocError;

pub mod calls;

// How many hours a day has.
pub const HOURS: u32 = 240;

// When a job may run: it starts at `release` or later, takes `takes` hours, and ends by `due`.
#[derive(Clone, Copy)]
pub struct Window {
    release: u16,
    takes: u16,
    due: u16,
    ghost ok: { (1 ≤ takes) × (release + takes ≤ due) × (due ≤ 240) },
}

// The rows of all jobs, of one kind.
#[derive(Copy)]
pub struct Rows<R> {
    held: [Option<R>; JOBS],
}

// A derived Clone gets no proof: it would need a bound on the layout of any row.
impl<R: Copy> Clone for Rows<R> {
    ghost is_clone = { λ a b. b ≡ a };

    ghost is_infallible = { λ _. Unit {0} };

    fn clone(&self) -> Result<Self, AllocError> {
        Ok(*self)
    }
}
