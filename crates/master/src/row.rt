// A row: the place of each job. Entries past the jobs are 0, so that rows with the same places are the same.
// It is an array and no vector, since rows are copied.
ghost use Rattle.std.specs.Prelude.{◌≡◌, ℕ, ◌≤◌, length, slice_index};
ghost use Rattle.jobs.specs.Sets.{width};

use jobs::set::JOBS;

pub mod calls;

#[derive(Clone, Copy, PartialEq, Eq, Debug)]
pub struct Row {
    places: [u8; JOBS],
    jobs: u8,
    ghost wide: { length places ≡ width },
    ghost few: { jobs ≤ width },
    ghost spare: { ((k : ℕ) → jobs ≤ k → slice_index places k ≡ 0) },
}
