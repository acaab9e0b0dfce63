// Workshops on top of one another, at the edge of what they hold.
use crate::closed::Closed;
use crate::made::{bench_of, set_of};
use facilities::bench::Bench;
use facilities::facility::Facility;
use jobs::refusal::Refusal;
use jobs::set::JobSet;
use std::test::Fail;
use workshops::allowance::Allowance;
use workshops::lone::Lone;
use workshops::memo::Memo;
use workshops::pair::Pair;
use workshops::pile::pile_up;
use workshops::reply::{Fault, Reply, SPENT};
use workshops::workshop::Workshop;

// Seven jobs that all fit beside one another.
const EASY: [[u32; 3]; 7] = [[0, 1, 240]; 7];

fn stop(cause: u8, depth: u8, place: u8, set: JobSet) -> Reply {
    Err(Fault {
        cause,
        depth,
        place,
        set,
    })
}

// The set with this number.
fn numbered(number: u32) -> Result<JobSet, Refusal> {
    let mut set = JobSet::empty();
    for job in 0..7u32 {
        if (number >> job) % 2 == 1 {
            set = set.with(job)?;
        }
    }
    Ok(set)
}

fn lone(rows: &[[u32; 3]]) -> Result<Lone<Bench>, Refusal> {
    Ok(Lone::new(bench_of(rows)?))
}

#[test]
fn depth_is_held(rt: HostRuntime) -> Result<(), Fail> {
    let none = JobSet::empty();
    let mut memo = Memo::new(Pair::new(Closed::new(1, 7, 252), Closed::new(1, 8, 255)));
    assert_eq!(rt; memo.verdict(0, none)?, stop(7, 254, 0, none));
    assert_eq!(rt; memo.verdict(1, none)?, stop(8, 255, 1, none));
    Ok(())
}

#[test]
fn count_is_held(rt: HostRuntime) -> Result<(), Fail> {
    let none = JobSet::empty();
    let mut pair = Pair::new(Closed::new(200, 7, 0), Closed::new(200, 8, 0));
    assert_eq!(rt; pair.count(), 255);
    assert_eq!(rt; pair.verdict(199, none)?, stop(7, 1, 199, none));
    assert_eq!(rt; pair.verdict(200, none)?, stop(8, 1, 200, none));
    assert_eq!(rt; pair.verdict(254, none)?, stop(8, 1, 254, none));
    assert_eq!(rt; pair.verdict(255, none), Err(Refusal::NoSuchPlace));
    Ok(())
}

#[test]
fn allowance_is_held(rt: HostRuntime) -> Result<(), Fail> {
    let none = JobSet::empty();
    let mut allowance = Allowance::new(lone(&EASY)?);
    allowance.grant(65535);
    allowance.grant(9);
    for _ in 0..65535u32 {
        assert_eq!(rt; allowance.verdict(0, none)?, Ok(true));
    }
    assert_eq!(rt; allowance.verdict(0, none)?, stop(SPENT, 0, 0, none));
    Ok(())
}

#[test]
fn sixty_fifth_drops_first(rt: HostRuntime) -> Result<(), Fail> {
    let first = set_of(&[0])?;
    let mut memo = pile_up(bench_of(&EASY)?, bench_of(&EASY)?);
    memo.grant(65);
    assert_eq!(rt; memo.verdict(1, first)?, Ok(true));
    for number in 0..63u32 {
        assert_eq!(rt; memo.verdict(0, numbered(number)?)?, Ok(true));
    }
    assert_eq!(rt;
        memo.verdict(1, first)?,
        Ok(true),
        "still known, so nothing is spent"
    );
    assert_eq!(rt; memo.verdict(0, numbered(63)?)?, Ok(true));
    assert_eq!(rt; memo.verdict(1, first)?, stop(SPENT, 1, 1, first));
    Ok(())
}

#[test]
fn stop_is_not_a_no(rt: HostRuntime) -> Result<(), Fail> {
    let mut memo = Memo::new(Allowance::new(lone(&EASY)?));
    let later = set_of(&[1])?;
    memo.grant(1);
    assert_eq!(rt; memo.verdict(0, set_of(&[0])?)?, Ok(true));
    assert_eq!(rt; memo.verdict(0, later)?, stop(SPENT, 1, 0, later));
    memo.grant(1);
    assert_eq!(rt; memo.verdict(0, later)?, Ok(true));
    Ok(())
}
