// The sets of the jobs 0, 1 and 2.
use jobs::refusal::Refusal;
use jobs::set::JobSet;

pub(crate) fn sets() -> Result<[JobSet; 8], Refusal> {
    let none = JobSet::empty();
    let a = JobSet::one(0)?;
    let b = JobSet::one(1)?;
    let c = JobSet::one(2)?;
    let ab = a.join(b);
    Ok([none, a, b, ab, c, a.join(c), b.join(c), ab.join(c)])
}
