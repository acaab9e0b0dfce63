// The worked run: three jobs, a bench and a test stand. It prints the sheet of the plan.
#![tactic(auto)]

mod trouble;

use master::measure::{Measure, Sum};
use planner::answers::{Judgement, Plan};
use planner::issue::issue;
use planner::pile::run_on_pile;
use planner::planner::Planner;
use planner::run::Call;
use std::io::Write;
use trouble::Trouble;
use worked_run::{PRICES, bench, stand};
use workshops::workshop::Workshop;

// The prices, and a grant of six answers.
fn calls() -> [Call; 7] {
    let [a, b, c, d, e, f] = PRICES.map(|(job, place, amount)| Call::Price { job, place, amount });
    [a, b, c, d, e, f, Call::Grant { amount: 6 }]
}

// Proposes and judges, in at most a hundred rounds, until there is a plan.
fn planned<W: Workshop, J: Measure>(planner: &mut Planner<W, J>) -> Result<Plan, Trouble> {
    for _ in 0..100 {
        let proposal = planner.propose()?.ok_or(Trouble::NoPlan)?;
        match planner.judge(proposal)? {
            Judgement::Plan(plan) => return Ok(plan),
            Judgement::Cut { .. } => {}
            _ => return Err(Trouble::NoPlan),
        }
    }
    Err(Trouble::NoPlan)
}

fn main(rt: HostRuntime) -> Result<(), Trouble> {
    let ran = run_on_pile(3, Sum {}, bench()?, stand()?, &calls());
    let mut planner = ran.planner;
    let plan = planned(&mut planner)?;
    let mut buffer = [0; 300];
    let Ok(length) = issue(plan, &mut buffer) else {
        return Err(Trouble::NoRoom);
    };
    if let Some(sheet) = buffer.get(0..length) {
        rt.stdout().write_all(sheet)?;
    }
    Ok(())
}
