// A place of a workshop: asking it, shrinking a set that it refuses, and making a cut of that.
ghost use Rattle.std.specs.Prelude.{◌≡◌, ℕ, ◌<◌};
ghost use Rattle.jobs.specs.Sets.{bits};
ghost use Rattle.master.specs.Refused.{most_places};
ghost use Rattle.master.specs.Tables.{held};
ghost use Rattle.judging.specs.Judging.{Asked, Puts};
ghost use Rattle.judging.specs.Refused.{UnlessAdded};
ghost use Rattle.judging.specs.Trials.{Tried, Shrinks, CutOff};

use crate::outcome::Turn;
use jobs::set::JobSet;
use master::table::{CutTable, ROOM};
use workshops::reply::{Fault, Reply};
use workshops::workshop::Workshop;

// A place that the workshop has, and that a cut can have.
#[derive(Drop)]
struct Place<'a, W: Workshop> {
    workshop: &'a mut W,
    number: u8,
    ghost within: { number < W.Workshop.meaning.count workshop.now },
    ghost few: { number < most_places },
}

// After each call it `stays` the same place of the same workshop.
impl<'a, W: Workshop> Place<'a, W> {
    ghost use Rattle.judging.specs.Places.{Stays};

    fn ask(&mut self, set: JobSet) -> Reply
        ensures stays { Stays self.old self.new }
        ensures asked { Asked W.Workshop.meaning self.old.workshop.now self.old.number (bits set) result self.new.workshop.now }
    {
        self.workshop.verdict(self.number, set).unwrap()
    }

    // Leaves the job out on trial: it stays out if the place still says no.
    fn leave_out(&mut self, set: JobSet, job: u32) -> Result<JobSet, Fault>
        ensures stays { Stays self.old self.new }
        ensures tried { Tried W.Workshop.meaning self.old.number (bits set) job self.old.workshop.now result self.new.workshop.now }
    {
        let less = set.without(job);
        if self.ask(less)? { Ok(set) } else { Ok(less) }
    }

    // Leaves out each job of a refused set, from the lowest, without which the place still says no.
    fn shrink(&mut self, set: JobSet) -> Result<JobSet, Fault>
        ensures stays { Stays self.old self.new }
        ensures shrinks { Shrinks W.Workshop.meaning self.old.number (bits set) self.old.workshop.now result self.new.workshop.now }
    {
        let mut left = set;
        for job in set.jobs() {
            left = self.leave_out(left, job)?;
        }
        Ok(left)
    }

    // Makes a cut of a set that the place has refused.
    fn cut_off(&mut self, cuts: &mut CutTable, set: JobSet) -> Turn
        ensures stays { Stays self.old self.new }
        ensures cuts { CutOff W.Workshop.meaning self.old.number (bits set) self.old.workshop.now (held cuts.old) result self.new.workshop.now (held cuts.new) }
        ensures same { UnlessAdded result (cuts.new ≡ cuts.old) }
    {
        if cuts.len() == ROOM {
            return Turn::Full;
        }
        match self.shrink(set) {
            Ok(left) => Turn::Added(cuts.add(self.number, left).unwrap()),
            Err(fault) => Turn::Stopped(fault),
        }
    }

    // Puts the set to the place.
    fn put(&mut self, cuts: &mut CutTable, set: JobSet) -> Turn
        ensures stays { Stays self.old self.new }
        ensures puts { Puts W.Workshop.meaning self.old.number (bits set) self.old.workshop.now (held cuts.old) result self.new.workshop.now (held cuts.new) }
        ensures same { UnlessAdded result (cuts.new ≡ cuts.old) }
    {
        match self.ask(set) {
            Ok(true) => Turn::Passed,
            Ok(false) => self.cut_off(cuts, set),
            Err(fault) => Turn::Stopped(fault),
        }
    }
}

// Puts the set to a place that there is. The place by reference is made here alone: where a public call makes it, the
// goals about the borrow's last value do not close.
pub(crate) fn turn<W: Workshop>(
    workshop: &mut W,
    cuts: &mut CutTable,
    place: u8,
    set: JobSet,
) -> Turn
    requires within { place < W.Workshop.meaning.count workshop.old }
    requires few { place < most_places }
    ensures puts { Puts W.Workshop.meaning place (bits set) workshop.old (held cuts.old) result workshop.new (held cuts.new) }
    ensures same { UnlessAdded result (cuts.new ≡ cuts.old) }
{
    let mut at = Place {
        workshop,
        number: place,
    };
    at.put(cuts, set)
}
