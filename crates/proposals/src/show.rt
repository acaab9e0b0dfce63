// Answers in words, and why the program ended early.
use jobs::refusal::Refusal;
use master::priced::Priced;
use std::num::ParseIntError;
use std::{fmt, io};
use thiserror::Error;

#[derive(Debug, Drop, Error)]
pub enum Failure {
    #[error("{0}")]
    Refused(#[from] Refusal),
    #[error("{0}")]
    Output(#[from] io::Error),
    #[error("{0}")]
    Number(#[from] ParseIntError),
    #[error("the arguments are how many cuts and how many cases")]
    Usage,
}

// The cheapest row with its cost, or that there is none, to print.
#[derive(Drop)]
pub struct Shown(pub Option<Priced>);

impl fmt::Display for Shown {
    fn fmt<W: fmt::Write>(&self, f: &mut fmt::Formatter<W>) -> fmt::Result {
        let Some(best) = self.0 else {
            return f.write_str("none");
        };
        let cost = best.cost;
        write!(f, "cost {cost}, row")?;
        for place in best.row.places() {
            write!(f, " {place}")?;
        }
        Ok(())
    }
}
