// Judging the places of a row.
ghost use Rattle.std.specs.Prelude.{◌≡◌, ℕ, ◌<◌, ◌≤◌};
ghost use Rattle.jobs.specs.Refusals.{Answered};
ghost use Rattle.master.specs.Refused.{most_places, IfRefused};
ghost use Rattle.master.specs.Rows.{row_places};
ghost use Rattle.master.specs.Tables.{held};
ghost use Rattle.judging.specs.Judging.{tally, Ends};
ghost use Rattle.judging.specs.Refused.{judge_refusal};
ghost use Rattle.judging.specs.Trials.{Turned};
ghost use Rattle.judging.specs.Truths.{TellsAll, Follows};

use crate::outcome::{Outcome, Turn};
use crate::place::turn;
use crate::put::PLACES;
use jobs::refusal::Refusal;
use master::cut::Addition;
use master::row::Row;
use master::table::CutTable;
use workshops::workshop::Workshop;

// By how many cuts an addition adds.
fn counted(addition: Addition) -> u16
    ensures value { result ≡ tally addition }
    ensures bound { result ≤ 1 }
{
    u16::from(addition == Addition::Put)
}

// Puts its jobs to a place, also where it has none. Workshop, table and row come as `judge_row` is given them.
fn judge_place<W: Workshop>(workshop: &mut W, cuts: &mut CutTable, row: &Row, place: u8) -> Turn
    requires within { place < W.Workshop.meaning.count workshop.old }
    requires few { place < most_places }
    ensures { Turned W.Workshop.meaning (row_places row.now) place workshop.old (held cuts.old) result workshop.new (held cuts.new) }
{
    let set = row.group(place);
    turn(workshop, cuts, place, set)
}

// Judges the places below the given number, from 0 upward.
fn judge_places<W: Workshop>(
    workshop: &mut W,
    cuts: &mut CutTable,
    row: &Row,
    places: u8,
) -> Outcome
    requires within { places ≤ W.Workshop.meaning.count workshop.old }
    requires few { places ≤ most_places }
    ensures { Ends W.Workshop.meaning workshop.old (held cuts.old) (row_places row.now) places result workshop.new (held cuts.new) }
{
    // How many cuts were added, once some place has said no.
    let mut cut: Option<u16> = None;
    for place in 0..places {
        let added = cut.unwrap_or(0);
        match judge_place(workshop, cuts, row, place) {
            Turn::Passed => {}
            Turn::Added(addition) => cut = Some(added + counted(addition)),
            Turn::Stopped(fault) => return Outcome::Stopped { fault, added },
            Turn::Full => return Outcome::Full { place, added },
        }
    }
    match cut {
        None => Outcome::Agreed,
        Some(added) => Outcome::Cut { added },
    }
}

// Judges each place in turn, from 0 upward. A place without jobs is judged too.
pub fn judge_row<W: Workshop>(
    workshop: &mut W,
    cuts: &mut CutTable,
    row: &Row,
) -> Result<Outcome, Refusal>
    ensures ends { Answered (judge_refusal (W.Workshop.meaning.count workshop.old)) result (λ o. Ends W.Workshop.meaning workshop.old (held cuts.old) (row_places row.now) (W.Workshop.meaning.count workshop.old) o workshop.new (held cuts.new)) }
    ensures tells { W.Workshop.meaning.invariant workshop.old → Answered (judge_refusal (W.Workshop.meaning.count workshop.old)) result (λ o. TellsAll W.Workshop.meaning workshop.old (row_places row.now) o workshop.new (held cuts.new)) }
    ensures follows { Follows W.Workshop.meaning workshop.old workshop.new }
    ensures refused { IfRefused result ((workshop.new ≡ workshop.old) × (cuts.new ≡ cuts.old)) }
{
    let places = workshop.count();
    if places > PLACES {
        return Err(Refusal::PlacesOutOfRange);
    }
    Ok(judge_places(workshop, cuts, row, places))
}
