// What is read of a plan: published calls of its own, beside those of a proposal.
ghost use Rattle.std.specs.Prelude.{◌≡◌};

use crate::answers::Plan;
use master::row::Row;

impl Plan {
    // The place of each job.
    pub fn row(&self) -> Row
        ensures { result ≡ self.now.priced.row }
    {
        self.priced.row
    }

    pub fn cost(&self) -> u32
        ensures { result ≡ self.now.priced.cost }
    {
        self.priced.cost
    }

    // The round in which it was judged.
    pub fn round(&self) -> u16
        ensures { result ≡ self.now.round }
    {
        self.round
    }
}
