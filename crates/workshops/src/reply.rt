// What a workshop says to a question.
ghost use Rattle.std.specs.Prelude.{◌≡◌};
ghost use Rattle.workshops.specs.Replies.{raised};

use jobs::set::JobSet;

// The cause of a stop where an allowance is spent. Causes are bytes and no enum, since any workshop may have its own.
pub const SPENT: u8 = 1;

// Why a workshop did not answer a question, how many layers below, and which question it was.
#[derive(Clone, Copy, PartialEq, Eq, Debug)]
pub struct Fault {
    pub cause: u8,
    pub depth: u8,
    pub place: u8,
    pub set: JobSet,
}

// Whether the place can schedule the set, or the stop that kept the workshop from an answer.
pub type Reply = Result<bool, Fault>;

impl Fault {
    // The stop of a workshop below as the layer above passes it on for its own place.
    pub fn raised(self, place: u8) -> Fault
        ensures { result ≡ raised place self }
    {
        Fault {
            depth: self.depth.saturating_add(1),
            place,
            ..self
        }
    }
}
