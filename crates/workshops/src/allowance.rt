// An allowance: so many answers may be had of the workshop below.
ghost use Rattle.std.specs.Prelude.{◌≡◌};
ghost use Rattle.workshops.specs.Allowances.{allowance};
ghost use Rattle.workshops.specs.AllowanceLaws.{allowance_lawful};

use crate::reply::{Fault, Reply, SPENT};
use crate::workshop::Workshop;
use jobs::refusal::Refusal;
use jobs::set::JobSet;

#[derive(Drop)]
pub struct Allowance<W> {
    below: W,
    left: u16,
}

impl<W: Workshop> Allowance<W> {
    pub fn new(below: W) -> Self
        ensures below { result.below ≡ below }
        ensures left { result.left ≡ 0 }
        ensures sound { W.Workshop.meaning.invariant below → (allowance W.Workshop.meaning).invariant result }
    {
        Allowance { below, left: 0 }
    }
}

impl<W: Workshop> Workshop for Allowance<W> {
    ghost meaning = { allowance W.Workshop.meaning };

    ghost lawful = { allowance_lawful W.Workshop.meaning W.Workshop.lawful };

    fn count(&self) -> u8 {
        self.below.count()
    }

    fn verdict(&mut self, place: u8, set: JobSet) -> Result<Reply, Refusal> {
        if place >= self.below.count() {
            return Err(Refusal::NoSuchPlace);
        }
        if self.left == 0 {
            return Ok(Err(Fault {
                cause: SPENT,
                depth: 0,
                place,
                set,
            }));
        }
        let reply = self.below.verdict(place, set)?;
        if reply.is_ok() {
            self.left -= 1;
        }
        Ok(reply.map_err(|fault| fault.raised(place)))
    }

    fn grant(&mut self, amount: u16) {
        self.below.grant(amount);
        self.left = self.left.saturating_add(amount);
    }
}
