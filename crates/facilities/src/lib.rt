// Facilities: what can schedule a set of jobs.
#![tactic(auto)]

pub mod bench;
pub mod facility;
pub mod rows;
mod search;
pub mod shrink;
pub mod stand;
pub mod standing;
mod trial;
