// The master: measures, cuts, and the cheapest assignment.
#![tactic(auto)]

pub mod cheapest;
pub mod cut;
mod groups;
pub mod measure;
mod offer;
mod pair;
pub mod priced;
pub mod row;
mod sets;
pub mod table;
pub mod tariff;
mod walk;

pub use offer::PLACES;
