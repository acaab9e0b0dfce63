// Rows at the edge of what is taken, and what a refusal leaves.
use crate::answers::number_of;
use crate::made::{bench_of, set_of, stand_of};
use facilities::bench::Bench;
use facilities::facility::Facility;
use facilities::stand::Stand;
use jobs::refusal::Refusal;
use std::test::Fail;

const MOST: u32 = 4294967295;

// The published numbers of refusals are what is tested.

// Job, from, for, by, and the number of the refusal, if the row is refused.
const BENCH_ROWS: [(u32, u32, u32, u32, Option<u8>); 17] = [
    (0, 0, 1, 240, None),
    (0, 0, 1, 241, Some(6)),
    (0, 0, 240, 240, None),
    (0, 1, 240, 240, Some(6)),
    (0, 239, 1, 240, None),
    (0, 5, 3, 8, None),
    (0, 5, 4, 8, Some(6)),
    (0, 5, 0, 8, Some(6)),
    (0, 0, 0, 0, Some(6)),
    (0, MOST, 1, 240, Some(6)),
    (0, 1, MOST, 240, Some(6)),
    (0, 0, 1, MOST, Some(6)),
    (0, MOST, MOST, MOST, Some(6)),
    (15, 0, 1, 1, None),
    (16, 0, 1, 1, Some(4)),
    (16, 0, 0, 0, Some(4)),
    (MOST, MOST, MOST, MOST, Some(4)),
];

// Supply, job, from, for, by, draw, and the number as above.
const STAND_ROWS: [(u32, u32, u32, u32, u32, u32, Option<u8>); 18] = [
    (0, 0, 0, 1, 1, 1, Some(3)),
    (1, 0, 0, 1, 1, 1, None),
    (1, 0, 0, 1, 1, 2, Some(6)),
    (255, 0, 0, 1, 1, 255, None),
    (255, 0, 0, 1, 1, 256, Some(6)),
    (256, 0, 0, 1, 1, 1, Some(3)),
    (256, 16, 0, 0, 0, 0, Some(3)),
    (MOST, 0, 0, 1, 1, 1, Some(3)),
    (4, 15, 0, 1, 1, 1, None),
    (4, 16, 0, 1, 1, 1, Some(4)),
    (4, 16, 0, 0, 0, 0, Some(4)),
    (4, 0, 0, 1, 1, 0, Some(6)),
    (4, 0, 0, 1, 1, MOST, Some(6)),
    (4, 0, 0, 1, 240, 4, None),
    (4, 0, 0, 1, 241, 4, Some(6)),
    (4, 0, 5, 4, 8, 4, Some(6)),
    (4, 0, 5, 0, 8, 4, Some(6)),
    (4, 0, MOST, MOST, MOST, 4, Some(6)),
];

#[test]
fn bench_rows(rt: HostRuntime) -> Result<(), Fail> {
    for (job, release, takes, due, number) in BENCH_ROWS {
        let mut bench = Bench::new();
        assert_eq!(rt; number_of(bench.row(job, release, takes, due)), number);
        if number.is_none() {
            assert!(rt; bench.verdict(set_of(&[job])?));
        }
    }
    Ok(())
}

#[test]
fn stand_rows(rt: HostRuntime) -> Result<(), Fail> {
    for (supply, job, release, takes, due, draw, number) in STAND_ROWS {
        let mut stand = Stand::new(supply);
        assert_eq!(rt;
            number_of(stand.row(job, release, takes, due, draw)),
            number
        );
        if number.is_none() {
            assert!(rt; stand.verdict(set_of(&[job])?));
        }
    }
    Ok(())
}

// What the facility says to the sets of the jobs 0 and 1.
fn said<F: Facility>(facility: &F) -> Result<[bool; 4], Refusal> {
    Ok([
        facility.verdict(set_of(&[])?),
        facility.verdict(set_of(&[0])?),
        facility.verdict(set_of(&[1])?),
        facility.verdict(set_of(&[0, 1])?),
    ])
}

#[test]
fn refused_rows_change_nothing(rt: HostRuntime) -> Result<(), Fail> {
    let mut bench = bench_of(&[[0, 3, 5], [0, 3, 5]])?;
    let mut stand = stand_of(3, &[[0, 3, 5, 2], [0, 3, 5, 2]])?;
    let before = [true, true, true, false];
    assert_eq!(rt; number_of(bench.row(1, 0, 3, 241)), Some(6));
    assert_eq!(rt; number_of(bench.row(17, 0, 3, 6)), Some(4));
    assert!(rt; said(&bench)? == before);
    assert_eq!(rt; number_of(stand.row(1, 0, 3, 6, 4)), Some(6));
    assert_eq!(rt; number_of(stand.row(17, 0, 3, 6, 1)), Some(4));
    assert!(rt; said(&stand)? == before);
    Ok(())
}

#[test]
fn new_rows_replace_old_ones(rt: HostRuntime) -> Result<(), Fail> {
    let mut bench = bench_of(&[[0, 3, 5], [0, 3, 5]])?;
    let mut stand = stand_of(3, &[[0, 3, 5, 2], [0, 3, 5, 2]])?;
    assert_eq!(rt; number_of(bench.row(1, 0, 3, 6)), None);
    assert_eq!(rt; number_of(stand.row(1, 0, 3, 5, 1)), None);
    assert!(rt; said(&bench)? == [true, true, true, true]);
    assert!(rt; said(&stand)? == [true, true, true, true]);
    Ok(())
}
