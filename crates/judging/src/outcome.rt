// What comes of a judgement.
use master::cut::Addition;
use workshops::reply::Fault;

// What comes of putting a set to one place.
#[derive(Clone, Copy)]
pub enum Turn {
    // The place can schedule it.
    Passed,
    // It cannot; the set was shrunk and the cut handed to the table.
    Added(Addition),
    // The workshop stopped.
    Stopped(Fault),
    // It cannot, and the table has no room for a cut.
    Full,
}

// How the judgement of a row ends.
#[derive(Clone, Copy)]
pub enum Outcome {
    // Every place said yes.
    Agreed,
    // Some place said no, and so many cuts were added.
    Cut { added: u16 },
    Stopped { fault: Fault, added: u16 },
    Full { place: u8, added: u16 },
}
