// Cheapest assignments for random tariffs and cuts, the same in every run. The arguments are how many cuts
// a table gets and how many cases there are.
#![tactic(auto)]

mod cases;
mod show;

use cases::{random_cuts, random_tariff};
use master::cheapest::cheapest;
use master::measure::Sum;
use show::{Failure, Shown};
use std::env;
use xorshift::Random;

const SEED: u32 = 2_463_534_242;

// The numbers that the program is given.
#[derive(Clone, Copy)]
struct Wanted {
    cuts: usize,
    cases: usize,
}

// Both words are there before either is read as a number.
fn read_wanted(rt: &HostRuntime) -> Result<Wanted, Failure> {
    let mut words = env::args(rt)?;
    let _ = words.next();
    let cuts = words.next().ok_or(Failure::Usage)?;
    let cases = words.next().ok_or(Failure::Usage)?;
    Ok(Wanted {
        cuts: cuts.parse::<usize>()?,
        cases: cases.parse::<usize>()?,
    })
}

fn main(rt: HostRuntime) -> Result<(), Failure> {
    let wanted = read_wanted(&rt)?;
    let mut random = Random::new(SEED);
    for number in 0..wanted.cases {
        let tariff = random_tariff(&mut random)?;
        let cuts = random_cuts(&mut random, wanted.cuts)?;
        let held = cuts.len();
        let answer = Shown(cheapest(&Sum {}, &tariff, &cuts));
        println!(rt; "instance {number}, cuts {held}: {answer}")?;
    }
    Ok(())
}
