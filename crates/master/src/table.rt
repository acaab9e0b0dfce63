// The cuts held, in the order in which they were put.
ghost use Rattle.std.specs.Prelude.{◌≤◌, length};
ghost use Rattle.master.specs.Cuts.{room, Clash, Misplaced};

use crate::cut::Cut;
use arrayvec::ArrayVec;

pub mod calls;

// How many cuts a table holds at most.
pub const ROOM: usize = 512;

#[derive(Drop)]
pub struct CutTable {
    cuts: ArrayVec<Cut, ROOM>,
    ghost few: { length cuts.items ≤ room },
    ghost apart: { (Clash cuts.items → ⊥) },
    ghost placed: { (Misplaced cuts.items → ⊥) },
}
