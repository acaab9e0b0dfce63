// Judging a row of places: each place is asked about its jobs, and what it refuses becomes a cut.
#![tactic(auto)]

pub mod judge;
pub mod outcome;
mod place;
pub mod put;
