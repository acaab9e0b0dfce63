// Putting a set to one place.
ghost use Rattle.std.specs.Prelude.{◌≡◌, ℕ};
ghost use Rattle.jobs.specs.Refusals.{Answered};
ghost use Rattle.jobs.specs.Sets.{bits};
ghost use Rattle.master.specs.Refused.{IfRefused};
ghost use Rattle.master.specs.Tables.{held};
ghost use Rattle.judging.specs.Judging.{Puts};
ghost use Rattle.judging.specs.Refused.{put_refusal, UnlessAdded};
ghost use Rattle.judging.specs.Truths.{Tells, Follows};

use crate::outcome::Turn;
use crate::place::turn;
use jobs::refusal::Refusal;
use jobs::set::JobSet;
use master::table::CutTable;
use workshops::workshop::Workshop;

// How many places there are at most. Their numbers are 0 to PLACES - 1.
pub(crate) const PLACES: u8 = master::PLACES as u8;

// Puts the set to the place: a set that it cannot schedule is shrunk and becomes a cut.
pub fn put<W: Workshop>(
    workshop: &mut W,
    cuts: &mut CutTable,
    place: u8,
    set: JobSet,
) -> Result<Turn, Refusal>
    ensures turn { Answered (put_refusal (W.Workshop.meaning.count workshop.old) place) result (λ t. Puts W.Workshop.meaning place (bits set) workshop.old (held cuts.old) t workshop.new (held cuts.new)) }
    ensures table { Answered (put_refusal (W.Workshop.meaning.count workshop.old) place) result (λ t. UnlessAdded t (cuts.new ≡ cuts.old)) }
    ensures tells { W.Workshop.meaning.invariant workshop.old → Answered (put_refusal (W.Workshop.meaning.count workshop.old) place) result (λ t. Tells W.Workshop.meaning workshop.old place (bits set) (held cuts.old) t workshop.new (held cuts.new)) }
    ensures follows { Follows W.Workshop.meaning workshop.old workshop.new }
    ensures refused { IfRefused result ((workshop.new ≡ workshop.old) × (cuts.new ≡ cuts.old)) }
{
    if place >= workshop.count() || place >= PLACES {
        return Err(Refusal::NoSuchPlace);
    }
    Ok(turn(workshop, cuts, place, set))
}
