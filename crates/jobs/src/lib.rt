// Jobs, sets of jobs, and the refusals of every call.
#![tactic(auto)]

pub mod list;
pub mod refusal;
pub mod set;
