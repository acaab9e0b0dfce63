// One job more in a set, where there is such a job.
ghost use Rattle.std.specs.Prelude.{◌≡◌, ℕ, ◌<◌, ◌≤◌, ◌⊎◌};
ghost use Rattle.jobs.specs.Sets.{width, bits, Has};
ghost use Rattle.jobs.specs.Words.{Same};

use jobs::set::JobSet;

pub(crate) fn include(set: JobSet, job: u32) -> JobSet
    ensures more { job < width → (j : ℕ) → Same (Has (bits result) j) (Has (bits set) j ⊎ (j ≡ job)) }
    ensures past { width ≤ job → result ≡ set }
{
    set.with(job).unwrap_or(set)
}
