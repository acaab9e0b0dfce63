// The smallest set that already fails: a set that cannot be scheduled, shrunk job by job.
ghost use Rattle.std.specs.Option.{MatchOption};
ghost use Rattle.jobs.specs.Sets.{bits};
ghost use Rattle.facilities.specs.Shrinking.{Tried, Shrunk, Minimal, AtMostOne};

use crate::facility::Facility;
use jobs::set::JobSet;

// The set without the job where the facility cannot schedule that either, else the set.
fn left_out<F: Facility>(facility: &F, set: JobSet, job: u32) -> JobSet
    ensures { Tried (F.Facility.family facility.now) (bits set) job (bits result) }
{
    let less = set.without(job);
    if facility.verdict(less) { set } else { less }
}

fn shrunk<F: Facility>(facility: &F, set: JobSet) -> JobSet
    requires { F.Facility.family facility.now (bits set) → ⊥ }
    ensures { Shrunk (F.Facility.family facility.now) (bits set) (bits result) }
{
    let mut left = set;
    for job in set.jobs() {
        left = left_out(facility, left, job);
    }
    left
}

// Nothing where the facility can schedule the set. Else what is left of it once each of its jobs, from the
// lowest, was left out on trial and stayed out if the facility still could not schedule the rest.
pub fn smallest_failing<F: Facility>(facility: &F, set: JobSet) -> Option<JobSet>
    ensures shrunk { MatchOption result (F.Facility.family facility.now (bits set)) (λ t. Shrunk (F.Facility.family facility.now) (bits set) (bits t)) }
    ensures minimal { MatchOption result (F.Facility.family facility.now (bits set)) (λ t. Minimal (F.Facility.family facility.now) (bits set) (bits t)) }
    ensures single { AtMostOne (Shrunk (F.Facility.family facility.now) (bits set)) }
{
    if facility.verdict(set) {
        return None;
    }
    let least = shrunk(facility, set);
    Some(least)
}
