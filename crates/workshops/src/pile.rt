// Two facilities as a pile of layers: a memo over an allowance over their pair.
ghost use Rattle.jobs.specs.Refusals.{Answered};
ghost use Rattle.workshops.specs.Piles.{Piled, Surveyed, Counted, either, two_places};

use crate::allowance::Allowance;
use crate::lone::Lone;
use crate::memo::Memo;
use crate::pair::Pair;
use crate::tally::{Tally, ask_all};
use crate::workshop::Workshop;
use facilities::facility::Facility;
use jobs::refusal::Refusal;
use jobs::set::JobSet;

pub fn pile_up<F: Facility, G: Facility>(
    first: F,
    second: G,
) -> Memo<Allowance<Pair<Lone<F>, Lone<G>>>>
    ensures { Piled F.Facility.family G.Facility.family first second result }
{
    Memo::new(Allowance::new(Pair::new(Lone::new(first), Lone::new(second))))
}

// Asks a new pile, granted the amount, about each set in turn, up to the first stop.
pub fn survey<F: Facility + Drop, G: Facility + Drop>(
    first: F,
    second: G,
    amount: u16,
    place: u8,
    sets: &[JobSet],
) -> Result<Tally, Refusal>
    ensures run { Surveyed F.Facility.family G.Facility.family first second amount place sets.now result }
    ensures exact { Answered (two_places place) result (Counted (either (F.Facility.family first) (G.Facility.family second) place) sets.now) }
{
    let mut pile = pile_up(first, second);
    pile.grant(amount);
    ask_all(&mut pile, place, sets)
}
