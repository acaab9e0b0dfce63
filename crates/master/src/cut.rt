// Cuts: what no assignment may do.
ghost use Rattle.std.specs.Prelude.{ℕ};

use jobs::set::JobSet;

// No assignment may give all the jobs of the set to the place.
#[derive(Clone, Copy, Default)]
pub struct Cut {
    pub place: u8,
    pub set: JobSet,
}

// What comes of adding a cut to a table.
#[derive(Clone, Copy, PartialEq, Eq, Debug)]
pub enum Addition {
    // A held cut of the same place is a part of it already.
    Covered,
    // There is no room for it.
    Full,
    // It was put last.
    Put,
}
