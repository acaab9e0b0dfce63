// Verdicts that were given, up to 64 of them.
ghost use Rattle.std.specs.Prelude.{◌≤◌, length};

use arrayvec::ArrayVec;
use jobs::set::JobSet;

pub mod calls;

// How many verdicts are remembered.
pub const ROOM: usize = 64;

// A verdict that was given: whether the place can schedule the set.
#[derive(Clone, Copy, Default)]
pub struct Note {
    pub place: u8,
    pub set: JobSet,
    pub yes: bool,
}

// The oldest verdict is the first.
#[derive(Drop)]
pub struct Notes {
    notes: ArrayVec<Note, ROOM>,
    ghost few: { length notes.items ≤ 64 },
}
