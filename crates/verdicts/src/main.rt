// A bench and a test stand with three jobs: which sets of them each can schedule, and what a workshop of both answers.
#![tactic(auto)]

mod ask;
mod sets;
mod show;

use ask::questions;
use show::{Failure, refused_row, verdicts};
use worked_run::{bench, stand};
use workshops::pile::pile_up;

fn main(rt: HostRuntime) -> Result<(), Failure> {
    verdicts(&rt, "bench", 0, &bench()?)?;
    verdicts(&rt, "stand", 1, &stand()?)?;
    refused_row(&rt)?;
    questions(&rt, 6, pile_up(bench()?, stand()?))?;
    questions(&rt, 5, pile_up(bench()?, stand()?))
}
