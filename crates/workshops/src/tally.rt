// One place asked about many sets.
ghost use Rattle.workshops.specs.Runs.{Steady};
ghost use Rattle.workshops.specs.Tallies.{AskedAll};

use crate::reply::Fault;
use crate::workshop::Workshop;
use jobs::refusal::Refusal;
use jobs::set::JobSet;

// What came of it.
#[derive(Clone, Copy, PartialEq, Eq, Debug, Default)]
pub struct Tally {
    // How many sets were answered, from the first on.
    pub answered: usize,
    // How many of these the place can schedule.
    pub yes: usize,
    // What ended the asking, where not every set was answered.
    pub stop: Option<Fault>,
}

// Asks the place about each set in turn, up to the first stop.
pub fn ask_all<W: Workshop>(workshop: &mut W, place: u8, sets: &[JobSet]) -> Result<Tally, Refusal>
    ensures tally { AskedAll W.Workshop.meaning workshop.old place sets.now result workshop.new }
    ensures steady { Steady W.Workshop.meaning }
{
    if place >= workshop.count() {
        return Err(Refusal::NoSuchPlace);
    }
    let mut tally = Tally::default();
    for set in sets {
        match workshop.verdict(place, *set)? {
            Ok(yes) => {
                tally.answered += 1;
                tally.yes += usize::from(yes);
            }
            Err(fault) => {
                tally.stop = Some(fault);
                break;
            }
        }
    }
    Ok(tally)
}
