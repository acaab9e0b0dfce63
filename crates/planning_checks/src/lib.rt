// Tests of the planner: the worked run, refusals, stale proposals, and cuts.
#![tactic(auto)]

#[cfg(test)]
mod setup;
#[cfg(test)]
mod steps;
#[cfg(test)]
mod worked;
