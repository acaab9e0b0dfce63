// What is drawn in each hour of a day.
use crate::rows::HOURS;

pub mod calls;

// One entry for each hour.
pub(crate) const ENTRIES: usize = HOURS as usize;

#[derive(Drop)]
pub(crate) struct Usage {
    drawn: [u16; ENTRIES],
}
