// Workshops: places that can be asked whether they can schedule a set of jobs.
#![tactic(auto)]

pub mod allowance;
pub mod lone;
pub mod memo;
pub mod notes;
pub mod pair;
pub mod pile;
pub mod reply;
pub mod tally;
pub mod workshop;
