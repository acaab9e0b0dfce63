// A planner over any workshop and any measure.
ghost use Rattle.std.specs.Prelude.{◌≡◌, ◌<◌, true, is_some};

use master::priced::Priced;
use master::table::CutTable;
use master::tariff::Tariff;

pub mod calls;
pub mod judge;

// The round number after which no proposal is made.
pub const LAST_ROUND: u16 = u16::MAX;

#[derive(Drop)]
pub struct Planner<W, J> {
    workshop: W,
    measure: J,
    jobs: u32,
    tariff: Tariff,
    cuts: CutTable,
    pending: Option<Priced>,
    round: u16,
    ghost room: { (is_some pending ≡ true → round < 65535) },
}
