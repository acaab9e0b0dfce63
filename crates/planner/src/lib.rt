// The planner: prices and bars come in, proposals and plans go out.
#![tactic(auto)]

pub mod answers;
pub mod issue;
pub mod pile;
mod plan;
pub mod planner;
pub mod run;
