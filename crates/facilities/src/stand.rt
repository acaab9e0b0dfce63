// A test stand, on which jobs run side by side as far as its supply goes.
ghost use Rattle.std.specs.Prelude.{ℕ};
ghost use Rattle.facilities.specs.Rows.{row_list};
ghost use Rattle.facilities.specs.Draws.{Overdrawn};

use crate::rows::Rows;
use crate::stand::row::StandRow;

pub mod calls;
pub mod row;
mod timetable;
mod usage;
pub mod verdict;

// No row is held that the supply cannot feed.
#[derive(Drop)]
pub struct Stand {
    supply: u32,
    rows: Rows<StandRow>,
    ghost fed: { (Overdrawn supply (row_list rows) → ⊥) },
}
