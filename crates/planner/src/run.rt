// A whole list of calls, carried out one after the other.
ghost use Rattle.planner.specs.Carried.{CarriesOut, told, call_of};
ghost use Rattle.planner.specs.Promises.{Serves};

use crate::answers::{Judgement, Proposal};
use crate::planner::Planner;
use jobs::refusal::Refusal;
use master::measure::Measure;
use master::priced::Priced;
use master::row::Row;
use workshops::workshop::Workshop;

// A call of a planner. A proposal to be judged is given by its row and its cost, and need not be pending.
#[derive(Clone, Copy)]
pub enum Call {
    Price { job: u32, place: u32, amount: u32 },
    Bar { job: u32, place: u32, barred: bool },
    Grant { amount: u16 },
    Propose,
    Judge { row: Row, cost: u32 },
}

// The answer of a call.
#[derive(Drop)]
pub enum Answer {
    Done(Result<(), Refusal>),
    Proposing(Result<Option<Proposal>, Refusal>),
    Judging(Result<Judgement, Refusal>),
}

impl<W: Workshop, J: Measure> Planner<W, J> {
    // Carries out one call. Calls are values, since the law over runs is about lists of them.
    pub fn call(&mut self, call: Call) -> Answer
        ensures { Serves W.Workshop.meaning J.Measure.joins self.old (call_of call) (told result) self.new }
    {
        match call {
            Call::Price { job, place, amount } => Answer::Done(self.price(job, place, amount)),
            Call::Bar { job, place, barred } => Answer::Done(self.bar(job, place, barred)),
            Call::Grant { amount } => Answer::Done(self.grant(amount)),
            Call::Propose => Answer::Proposing(self.propose()),
            Call::Judge { row, cost } => Answer::Judging(self.judge(Proposal {
                priced: Priced { row, cost },
            })),
        }
    }
}

// What a run has come to: the planner, and the answer of the last call, if there was one.
#[derive(Drop)]
pub struct Ran<W, J> {
    pub planner: Planner<W, J>,
    pub last: Option<Answer>,
}

// Makes a planner and carries out the calls, in their order.
// The law over runs stands here whole: whatever the calls are, there is a list of them with their answers,
// each answer is the one defined at the planner that the calls before it left, and the law holds after each.
pub fn run<W: Workshop, J: Measure>(jobs: u32, measure: J, workshop: W, calls: &[Call]) -> Ran<W, J>
    ensures { CarriesOut W.Workshop.meaning J.Measure.joins workshop measure jobs calls.now result }
{
    let mut planner = Planner::new(jobs, measure, workshop);
    let mut last = None;
    for call in calls {
        last = Some(planner.call(*call));
    }
    Ran { planner, last }
}
