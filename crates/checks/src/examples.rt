// Worked examples of one to three jobs.
use crate::made::{bench_of, set_of, stand_of};
use facilities::facility::Facility;
use facilities::shrink::smallest_failing;
use facilities::standing::Standing;
use jobs::refusal::Refusal;
use jobs::set::JobSet;
use std::test::Fail;

// Two jobs that exclude each other on a bench, and a third that fits beside both.
const RIVALS: [[u32; 3]; 3] = [[0, 3, 5], [0, 3, 5], [10, 1, 12]];

fn fits<F: Facility + Drop>(facility: F, jobs: &[u32]) -> Result<bool, Refusal> {
    Ok(facility.verdict(set_of(jobs)?))
}

fn fits_beside(booked: &[u32], jobs: &[u32]) -> Result<bool, Refusal> {
    fits(Standing::new(bench_of(&RIVALS)?, set_of(booked)?), jobs)
}

#[test]
fn bench_examples(rt: HostRuntime) -> Result<(), Fail> {
    assert_eq!(rt; fits(bench_of(&[[0, 3, 5], [0, 3, 6]])?, &[0, 1])?, true);
    assert_eq!(rt; fits(bench_of(&RIVALS)?, &[0])?, true);
    assert_eq!(rt; fits(bench_of(&RIVALS)?, &[1])?, true);
    assert_eq!(rt; fits(bench_of(&RIVALS)?, &[0, 1])?, false);
    assert_eq!(rt; fits(bench_of(&RIVALS)?, &[0, 2])?, true);
    assert_eq!(rt;
        fits(bench_of(&[[0, 4, 10], [1, 1, 2]])?, &[0, 1])?,
        true,
        "hour 0 is idle"
    );
    Ok(())
}

#[test]
fn absent_rows(rt: HostRuntime) -> Result<(), Fail> {
    assert_eq!(rt; fits(bench_of(&RIVALS)?, &[])?, true);
    assert_eq!(rt; fits(bench_of(&RIVALS)?, &[3])?, false);
    assert_eq!(rt; fits(stand_of(4, &[[0, 2, 2, 2]])?, &[])?, true);
    assert_eq!(rt; fits(stand_of(4, &[[0, 2, 2, 2]])?, &[0, 1])?, false);
    Ok(())
}

#[test]
fn stand_examples(rt: HostRuntime) -> Result<(), Fail> {
    let rows = [[0, 2, 2, 2], [0, 2, 2, 2], [0, 2, 2, 1]];
    assert_eq!(rt; fits(stand_of(4, &rows)?, &[0, 1])?, true);
    assert_eq!(rt; fits(stand_of(4, &rows)?, &[0, 2])?, true);
    assert_eq!(rt; fits(stand_of(4, &rows)?, &[0, 1, 2])?, false);
    assert_eq!(rt; fits(stand_of(5, &rows)?, &[0, 1, 2])?, true);
    Ok(())
}

#[test]
fn standing_examples(rt: HostRuntime) -> Result<(), Fail> {
    assert_eq!(rt; fits_beside(&[1], &[])?, true);
    assert_eq!(rt; fits_beside(&[1], &[1])?, true);
    assert_eq!(rt; fits_beside(&[1], &[0])?, false);
    assert_eq!(rt; fits_beside(&[1], &[2])?, true);
    assert_eq!(rt; fits_beside(&[0, 1], &[])?, false);
    Ok(())
}

#[test]
fn shrinking_examples(rt: HostRuntime) -> Result<(), Fail> {
    let bench = bench_of(&RIVALS)?;
    assert_eq!(rt;
        smallest_failing(&bench, set_of(&[0, 1, 2])?),
        Some(set_of(&[0, 1])?)
    );
    assert_eq!(rt; smallest_failing(&bench, set_of(&[0, 2])?), None);
    assert_eq!(rt;
        smallest_failing(&bench, set_of(&[1, 2, 7])?),
        Some(set_of(&[7])?)
    );
    let standing = Standing::new(bench, set_of(&[0, 1])?);
    assert_eq!(rt;
        smallest_failing(&standing, set_of(&[2])?),
        Some(JobSet::empty())
    );
    Ok(())
}
