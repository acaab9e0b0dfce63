// What a planner answers. A proposal is no plan: only a judgement makes a plan, and a sheet uses it up,
// so both are moved and never copied.
ghost use Rattle.std.specs.Prelude.{◌≡◌};

use master::priced::Priced;
use master::row::Row;
use workshops::reply::Fault;

// An assignment with its cost, for a judgement.
#[derive(Drop)]
pub struct Proposal {
    pub(crate) priced: Priced,
}

// An assignment that every place can schedule, with its cost and the round of its judgement.
#[derive(Drop)]
pub struct Plan {
    pub(crate) priced: Priced,
    pub(crate) round: u16,
}

#[derive(Drop)]
pub enum Judgement {
    Plan(Plan),
    // Some place refused its jobs; so many cuts were added.
    Cut {
        added: u16,
    },
    // The workshop stopped.
    Stop {
        fault: Fault,
        round: u16,
        added: u16,
    },
    // A place refused its jobs, and the table has no room for a cut.
    Full {
        place: u8,
        added: u16,
    },
}

impl Proposal {
    // The place of each job.
    pub fn row(&self) -> Row
        ensures { result ≡ self.now.priced.row }
    {
        self.priced.row
    }

    pub fn cost(&self) -> u32
        ensures { result ≡ self.now.priced.cost }
    {
        self.priced.cost
    }
}
