// A job's row on a stand: when it may run, and what it draws in each hour while it runs.
ghost use Rattle.std.specs.Prelude.{ℕ};

use crate::rows::Window;

pub mod calls;

#[derive(Clone, Copy)]
pub struct StandRow {
    window: Window,
    draw: u16,
}
