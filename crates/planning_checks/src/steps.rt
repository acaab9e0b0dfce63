// Proposals that are moved to their judgement, the cuts they leave, and a table of cuts on its own.
use crate::setup::calls;
use jobs::set::JobSet;
use master::cut::Addition;
use master::measure::Sum;
use master::row::Row;
use master::table::CutTable;
use planner::answers::Judgement;
use planner::pile::run_on_pile;
use std::test::Fail;
use worked_run::{bench, stand};

#[test]
fn proposed_cut_and_proposed_again(rt: HostRuntime) -> Result<(), Fail> {
    let calls = calls(6)?;
    let mut planner = run_on_pile(3, Sum {}, bench()?, stand()?, &calls[0..7]).planner;
    let Some(first) = planner.propose()? else {
        return Err(Fail::new("no proposal"));
    };
    assert!(rt; first.cost() == 250 && first.row().same(&Row::new(&[0, 0, 0])?));
    let Judgement::Cut { added } = planner.judge(first)? else {
        return Err(Fail::new("no cut"));
    };
    assert!(rt; added == 1);
    let Some((place, set)) = planner.cut(0) else {
        return Err(Fail::new("no cut held"));
    };
    assert!(rt; place == 0 && set.contains(0) && set.contains(1) && set.len() == 2);
    assert!(rt; planner.cut(1).is_none());
    let Some(second) = planner.propose()? else {
        return Err(Fail::new("no second proposal"));
    };
    let Judgement::Plan(plan) = planner.judge(second)? else {
        return Err(Fail::new("no plan"));
    };
    assert!(rt; plan.cost() == 270 && plan.round() == 2 && plan.row().same(&Row::new(&[0, 1, 0])?));
    Ok(())
}

#[test]
fn a_table_of_cuts(rt: HostRuntime) -> Result<(), Fail> {
    let both = JobSet::one(0)?.with(1)?;
    let mut table = CutTable::new();
    assert!(rt; table.add(8, both).is_err());
    assert_eq!(rt; table.add(0, both.with(2)?)?, Addition::Put);
    assert_eq!(rt; table.add(0, both)?, Addition::Put);
    assert_eq!(rt; table.add(0, both.with(3)?)?, Addition::Covered);
    assert!(rt; table.len() == 1);
    assert!(rt; !table.obeys(&Row::new(&[0, 0, 1])?));
    assert!(rt; table.obeys(&Row::new(&[0, 1, 0])?));
    assert_eq!(rt; table.add(1, JobSet::empty())?, Addition::Put);
    assert!(rt; !table.obeys(&Row::new(&[0, 1, 0])?));
    Ok(())
}
