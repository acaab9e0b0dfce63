// A memo: answers of the workshop below are remembered, and what is known is not asked again.
ghost use Rattle.std.specs.Prelude.{◌≡◌, ◌<◌, []};
ghost use Rattle.jobs.specs.Sets.{bits};
ghost use Rattle.workshops.specs.Memos.{memo};
ghost use Rattle.workshops.specs.Remembered.{remembered, known};
ghost use Rattle.workshops.specs.Replies.{True};
ghost use Rattle.workshops.specs.MemoLaws.{memo_lawful};

use crate::notes::{Note, Notes};
use crate::reply::Reply;
use crate::workshop::Workshop;
use jobs::refusal::Refusal;
use jobs::set::JobSet;

#[derive(Drop)]
pub struct Memo<W> {
    below: W,
    notes: Notes,
}

impl<W: Workshop> Memo<W> {
    pub fn new(below: W) -> Self
        ensures below { result.below ≡ below }
        ensures notes { remembered result.notes ≡ [] }
        ensures sound { W.Workshop.meaning.invariant below → (memo W.Workshop.meaning).invariant result }
    {
        Memo {
            below,
            notes: Notes::new(),
        }
    }

    // The answer that is known, if one is. It is true where what is remembered is.
    fn recall(&self, place: u8, set: JobSet) -> Option<bool>
        ensures value { result ≡ known (remembered self.now.notes) place (bits set) }
        ensures truth { (memo W.Workshop.meaning).invariant self.now → place < W.Workshop.meaning.count self.now.below → True result (W.Workshop.meaning.family self.now.below place (bits set)) }
    {
        self.notes.known(place, set)
    }
}

impl<W: Workshop> Workshop for Memo<W> {
    ghost meaning = { memo W.Workshop.meaning };

    ghost lawful = { memo_lawful W.Workshop.meaning W.Workshop.lawful };

    fn count(&self) -> u8 {
        self.below.count()
    }

    fn verdict(&mut self, place: u8, set: JobSet) -> Result<Reply, Refusal> {
        if place >= self.below.count() {
            return Err(Refusal::NoSuchPlace);
        }
        if let Some(yes) = self.recall(place, set) {
            return Ok(Ok(yes));
        }
        let reply = self.below.verdict(place, set)?;
        if let Ok(yes) = reply {
            self.notes.remember(Note { place, set, yes });
        }
        Ok(reply.map_err(|fault| fault.raised(place)))
    }

    fn grant(&mut self, amount: u16) {
        self.below.grant(amount);
    }
}
