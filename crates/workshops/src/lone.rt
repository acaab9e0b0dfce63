// A single facility as a workshop of one place.
ghost use Rattle.std.specs.Prelude.{◌≡◌};
ghost use Rattle.workshops.specs.Lones.{lone};
ghost use Rattle.std.proofs.Common.{rules};

use crate::reply::Reply;
use crate::workshop::Workshop;
use facilities::facility::Facility;
use jobs::refusal::Refusal;
use jobs::set::JobSet;

#[derive(Drop)]
pub struct Lone<F> {
    facility: F,
}

impl<F: Facility> Lone<F> {
    pub fn new(facility: F) -> Self
        ensures facility { result.facility ≡ facility }
        ensures sound { (lone F.Facility.family).invariant result }
    {
        Lone { facility }
    }
}

impl<F: Facility> Workshop for Lone<F> {
    ghost meaning = { lone F.Facility.family };

    ghost lawful = { Prim.search rules };

    fn count(&self) -> u8 {
        1
    }

    fn verdict(&mut self, place: u8, set: JobSet) -> Result<Reply, Refusal> {
        if place != 0 {
            return Err(Refusal::NoSuchPlace);
        }
        Ok(Ok(self.facility.verdict(set)))
    }

    fn grant(&mut self, _amount: u16) {}
}
