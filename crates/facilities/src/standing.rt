// Standing jobs: a facility where some jobs are booked already.
ghost use Rattle.std.specs.Prelude.{◌≡◌};
ghost use Rattle.facilities.specs.Standings.{standing};
ghost use Rattle.jobs.specs.Sets.{bits, joined};
ghost use Rattle.jobs.proofs.Members.{part_joined};

use crate::facility::Facility;
use jobs::set::JobSet;

#[derive(Drop)]
pub struct Standing<F> {
    below: F,
    booked: JobSet,
}

impl<F: Facility> Standing<F> {
    pub fn new(below: F, booked: JobSet) -> Self
        ensures below { result.below ≡ below }
        ensures booked { result.booked ≡ booked }
    {
        Standing { below, booked }
    }
}

impl<F: Facility> Facility for Standing<F> {
    ghost family = { standing F.Facility.family };

    ghost parts = { λ f part whole p m. F.Facility.parts f.below (joined part (bits f.booked)) (joined whole (bits f.booked)) (part_joined part whole (bits f.booked) p) m };

    fn verdict(&self, set: JobSet) -> bool {
        self.below.verdict(set.join(self.booked))
    }
}
