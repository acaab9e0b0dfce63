// Tests of the facilities and the workshops: worked examples, bounds, refusals, and a comparison with plain enumeration.
#![tactic(auto)]

pub mod answers;
#[cfg(test)]
mod bounds;
pub mod closed;
#[cfg(test)]
mod enumeration;
#[cfg(test)]
mod examples;
#[cfg(test)]
mod made;
#[cfg(test)]
mod piles;
#[cfg(test)]
mod random;
