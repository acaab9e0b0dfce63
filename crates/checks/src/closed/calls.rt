// Making a closed workshop, and asking it.
ghost use Rattle.std.specs.Prelude.{◌≡◌, ℕ, ◌≤◌};
ghost use Rattle.std.proofs.Common.{subst, ◌∙◌};
ghost use Rattle.checks.specs.Closing.{closed};
ghost use Rattle.workshops.specs.KeptFacts.{kept_same, unmoved_same};
ghost use Rattle.checks.specs.ClosedWorkshopLemmas.{same_cause, same_depth};

use crate::closed::Closed;
use jobs::refusal::Refusal;
use jobs::set::JobSet;
use workshops::reply::{Fault, Reply};
use workshops::workshop::Workshop;

impl Closed {
    pub fn new(places: u8, cause: u8, depth: u8) -> Closed
        ensures places { result.places ≡ places }
        ensures cause { result.cause ≡ cause }
        ensures depth { result.depth ≡ depth }
    {
        Closed {
            places,
            cause,
            depth,
        }
    }
}

impl Workshop for Closed {
    ghost meaning = { closed };

    ghost lawful = { record {
      few = λ w. w.bytes.0;
      bytes = λ w p s c d l e. (
        subst (λ (n : ℕ). n ≤ 255) (same_cause w.cause w.depth c d e) w.bytes.1,
        subst (λ (n : ℕ). n ≤ 255) (same_depth w.cause w.depth c d e) w.bytes.2,
      );
      parts = λ w p part whole l f m. m;
      asked = λ w v p s a l e. kept_same closed w v e;
      stopped = λ w v p s l e. unmoved_same closed w v e;
      sound = λ w v p s a l e t i. tt;
      granted = λ w v n e. kept_same closed w v e;
      eased = λ w v n e p s l r. unmoved_same closed w v e p s l ∙ r;
      carried = λ w v n e i. tt;
    } };

    fn count(&self) -> u8 {
        self.places
    }

    fn verdict(&mut self, place: u8, set: JobSet) -> Result<Reply, Refusal> {
        if place >= self.places {
            return Err(Refusal::NoSuchPlace);
        }
        Ok(Err(Fault {
            cause: self.cause,
            depth: self.depth,
            place,
            set,
        }))
    }

    fn grant(&mut self, _amount: u16) {}
}
