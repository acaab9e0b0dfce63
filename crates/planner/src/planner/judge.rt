// Judging a proposal.
ghost use Rattle.std.specs.Prelude.{◌≡◌, ℕ, Some, Ok};
ghost use Rattle.jobs.specs.Words.{Exactly};
ghost use Rattle.master.specs.Rows.{row_places};
ghost use Rattle.planner.specs.Calls.{Judge};
ghost use Rattle.planner.specs.Promises.{Serves};
ghost use Rattle.planner.specs.Steps.{end_of};
ghost use Rattle.planner.specs.Views.{offer, judging};

use crate::answers::{Judgement, Plan, Proposal};
use crate::planner::Planner;
use jobs::refusal::Refusal;
use judging::judge::judge_row;
use judging::outcome::Outcome;
use master::measure::Measure;
use workshops::workshop::Workshop;

// The answer of a judgement in the given round.
fn concluded(outcome: Outcome, proposal: Proposal, round: u16) -> Judgement
    ensures { judging (Ok result) ≡ end_of (row_places proposal.priced.row) proposal.priced.cost round outcome }
{
    match outcome {
        Outcome::Agreed => Judgement::Plan(Plan {
            priced: proposal.priced,
            round,
        }),
        Outcome::Cut { added } => Judgement::Cut { added },
        Outcome::Stopped { fault, added } => Judgement::Stop {
            fault,
            round,
            added,
        },
        Outcome::Full { place, added } => Judgement::Full { place, added },
    }
}

impl<W: Workshop, J: Measure> Planner<W, J> {
    // Whether a proposal with the same row and cost is pending.
    #[tactic(auto, using(crate::proofs::Stepping::pending_eq))]
    fn is_pending(&self, proposal: &Proposal) -> bool
        ensures { Exactly result (offer self.now.pending ≡ Some (row_places proposal.now.priced.row, proposal.now.priced.cost)) }
    {
        self.pending == Some(proposal.priced)
    }

    // Asks each place about its jobs. A plan if all say yes; what a place refuses becomes a cut.
    pub fn judge(&mut self, proposal: Proposal) -> Result<Judgement, Refusal>
        ensures { Serves W.Workshop.meaning J.Measure.joins self.old (Judge (row_places proposal.priced.row) proposal.priced.cost) (judging result) self.new }
    {
        self.check_sizes()?;
        if !self.is_pending(&proposal) {
            return Err(Refusal::NotPending);
        }
        let round = self.round + 1;
        let outcome = judge_row(&mut self.workshop, &mut self.cuts, &proposal.priced.row)?;
        self.pending = None;
        self.round = round;
        Ok(concluded(outcome, proposal, round))
    }
}
