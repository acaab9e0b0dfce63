// The worked run to its end, and where it stops with one answer less.
use crate::setup::{calls, judge, price};
use checks::answers::number_of;
use jobs::refusal::Refusal;
use master::measure::Sum;
use planner::answers::Judgement;
use planner::issue::issue;
use planner::pile::run_on_pile;
use planner::run::{Answer, Call};
use std::test::Fail;
use worked_run::{bench, stand};

// How the last call was refused, if it was.
fn ending(last: Option<Answer>) -> Result<Option<u8>, Fail> {
    let Some(answer) = last else {
        return Err(Fail::new("no call"));
    };
    match answer {
        Answer::Done(answer) => Ok(number_of(answer)),
        Answer::Proposing(answer) => Ok(number_of(answer)),
        Answer::Judging(answer) => Ok(number_of(answer)),
    }
}

fn judgement(last: Option<Answer>) -> Result<Judgement, Fail> {
    let Some(answer) = last else {
        return Err(Fail::new("no call"));
    };
    let Answer::Judging(judging) = answer else {
        return Err(Fail::new("no judgement"));
    };
    judging.map_err(|_| Fail::new("refused"))
}

#[test]
fn six_answers_give_the_sheet(rt: HostRuntime) -> Result<(), Fail> {
    let ran = run_on_pile(3, Sum {}, bench()?, stand()?, &calls(6)?);
    let Judgement::Plan(plan) = judgement(ran.last)? else {
        return Err(Fail::new("no plan"));
    };
    let mut short = [7; 299];
    let Err(back) = issue(plan, &mut short) else {
        return Err(Fail::new("issued into 299 bytes"));
    };
    assert_eq!(rt; back.refusal.number(), 10);
    assert!(rt; short[0] == 7 && short[298] == 7);
    let mut buffer = [7; 300];
    let Ok(length) = issue(back.plan, &mut buffer) else {
        return Err(Fail::new("not issued into 300 bytes"));
    };
    let text = b"plan round 2 cost 270\njob 0 place 0\njob 1 place 1\njob 2 place 0\n";
    assert_eq!(rt; length, text.len());
    assert!(rt; buffer.starts_with(text));
    assert!(rt; buffer[299] == 7);
    Ok(())
}

#[test]
fn five_answers_stop_it(rt: HostRuntime) -> Result<(), Fail> {
    let ran = run_on_pile(3, Sum {}, bench()?, stand()?, &calls(5)?);
    let Judgement::Stop {
        fault,
        round,
        added,
    } = judgement(ran.last)?
    else {
        return Err(Fail::new("no stop"));
    };
    assert!(rt; round == 2 && added == 0);
    assert!(rt; fault.place == 1 && fault.cause == 1 && fault.depth == 1);
    assert!(rt; fault.set.contains(1) && fault.set.len() == 1);
    Ok(())
}

#[test]
fn refusals_by_number(rt: HostRuntime) -> Result<(), Fail> {
    let propose = Call::Propose;
    let cases = [
        (0, propose, Some(1)),
        (17, propose, Some(1)),
        (16, propose, None),
        (3, price(3, 0, 0), Some(4)),
        (3, price(0, 2, 0), Some(5)),
        (3, price(0, 0, 1_000_000), None),
        (3, price(0, 0, 1_000_001), Some(7)),
        (3, price(3, 2, 1_000_001), Some(4)),
        (3, judge(&[0, 0, 0], 0)?, Some(9)),
    ];
    for (jobs, call, number) in cases {
        let ran = run_on_pile(jobs, Sum {}, bench()?, stand()?, &[call]);
        assert_eq!(rt; ending(ran.last)?, number);
    }
    Ok(())
}

#[test]
fn a_proposal_is_judged_once_and_while_it_is_pending(rt: HostRuntime) -> Result<(), Fail> {
    let ask = Call::Propose;
    let all = judge(&[0, 0, 0], 0)?;
    let other = judge(&[0, 0, 0], 1)?;
    let fewer = judge(&[0, 0], 0)?;
    let grant = Call::Grant { amount: 9 };
    let cases = [
        ([ask, grant, all], None),
        ([ask, grant, other], Some(9)),
        ([ask, grant, fewer], Some(9)),
        ([ask, price(0, 0, 5), all], Some(9)),
        ([ask, all, all], Some(9)),
    ];
    for (calls, number) in cases {
        let ran = run_on_pile(3, Sum {}, bench()?, stand()?, &calls);
        assert_eq!(rt; ending(ran.last)?, number);
    }
    Ok(())
}
