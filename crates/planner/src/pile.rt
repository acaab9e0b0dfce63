// A run over two facilities as a pile of layers: a memo over an allowance over their pair.
ghost use Rattle.planner.specs.Carried.{CarriesOutOnPile};

use crate::run::{Call, Ran, run};
use facilities::facility::Facility;
use master::measure::Measure;
use workshops::allowance::Allowance;
use workshops::lone::Lone;
use workshops::memo::Memo;
use workshops::pair::Pair;
use workshops::pile::pile_up;

// Makes the pile and a planner over it, and carries out the calls. The law holds without any premise.
pub fn run_on_pile<F: Facility, G: Facility, J: Measure>(
    jobs: u32,
    measure: J,
    first: F,
    second: G,
    calls: &[Call],
) -> Ran<Memo<Allowance<Pair<Lone<F>, Lone<G>>>>, J>
    ensures { CarriesOutOnPile F.Facility.family G.Facility.family J.Measure.joins first second measure jobs calls.now result }
{
    run(jobs, measure, pile_up(first, second), calls)
}
