// What can be asked of remembered verdicts, and how one more is remembered.
ghost use Rattle.std.specs.Prelude.{◌≡◌, true, false, []};
ghost use Rattle.jobs.specs.Sets.{bits};
ghost use Rattle.jobs.specs.Words.{Exactly};
ghost use Rattle.workshops.specs.Remembered.{remembered, joined, Settles, Knows, KnownYes, KnownNo, known, Says};

use crate::notes::{Note, Notes};
use arrayvec::ArrayVec;
use jobs::set::JobSet;

impl Note {
    // Whether this verdict says yes, or no, to the question.
    pub fn settles(self, yes: bool, place: u8, set: JobSet) -> bool
        ensures { Exactly result (Settles yes place (bits set) self) }
    {
        if self.yes != yes {
            return false;
        }
        if self.place != place {
            return false;
        }
        if yes {
            set.is_part_of(self.set)
        } else {
            self.set.is_part_of(set)
        }
    }
}

impl Notes {
    // Nothing is remembered at first.
    pub fn new() -> Self
        ensures { remembered result ≡ [] }
    {
        Notes {
            notes: ArrayVec::new(),
        }
    }

    // Whether a remembered verdict says yes, or no, to the question.
    pub fn knows(&self, yes: bool, place: u8, set: JobSet) -> bool
        ensures { Exactly result (Knows yes (remembered self.now) place (bits set)) }
    {
        self.notes.iter().any(|note| note.settles(yes, place, set))
    }

    // What the remembered verdicts say to the question. A yes comes before a no.
    pub fn known(&self, place: u8, set: JobSet) -> Option<bool>
        ensures value { result ≡ known (remembered self.now) place (bits set) }
        ensures members { Says result (KnownYes (remembered self.now) place (bits set)) (KnownNo (remembered self.now) place (bits set)) }
    {
        if self.knows(true, place, set) {
            return Some(true);
        }
        if self.knows(false, place, set) {
            return Some(false);
        }
        None
    }

    // Remembers one more, in place of the oldest where there is no room.
    pub fn remember(&mut self, note: Note)
        ensures { remembered self.new ≡ joined (remembered self.old) note }
    {
        if self.notes.is_full() {
            self.notes.remove(0);
        }
        self.notes.push(note);
    }
}
