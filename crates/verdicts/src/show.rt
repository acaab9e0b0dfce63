// Sets, verdicts and refusals in words, and why the program ended early.
use crate::sets::sets;
use facilities::facility::Facility;
use facilities::shrink::smallest_failing;
use jobs::refusal::Refusal;
use jobs::set::JobSet;
use std::{fmt, io};
use thiserror::Error;
use worked_run::bench;

#[derive(Debug, Drop, Error)]
pub enum Failure {
    #[error("{0}")]
    Refused(#[from] Refusal),
    #[error("{0}")]
    Output(#[from] io::Error),
}

// A set of jobs, to print.
#[derive(Drop)]
pub struct Named(pub JobSet);

impl fmt::Display for Named {
    fn fmt<W: fmt::Write>(&self, f: &mut fmt::Formatter<W>) -> fmt::Result {
        let jobs = self.0.jobs();
        f.write_str("jobs")?;
        if jobs.len() == 0 {
            f.write_str(" none")?;
        }
        for job in jobs.as_slice() {
            write!(f, " {job}")?;
        }
        Ok(())
    }
}

// What the facility says to each set of the three jobs.
pub(crate) fn verdicts<F: Facility>(
    rt: &HostRuntime,
    name: &str,
    place: u8,
    facility: &F,
) -> Result<(), Failure> {
    for set in sets()? {
        let jobs = Named(set);
        match smallest_failing(facility, set) {
            None => println!(rt; "{name} (place {place}): {jobs} - yes")?,
            Some(least) => {
                let least = Named(least);
                println!(rt; "{name} (place {place}): {jobs} - no, {least} already fail")?;
            }
        }
    }
    Ok(())
}

// A row that no bench takes.
pub(crate) fn refused_row(rt: &HostRuntime) -> Result<(), Failure> {
    let mut bench = bench()?;
    if let Err(refusal) = bench.row(3, 6, 3, 8) {
        println!(rt;
            "bench (place 0): job 3 from hour 6, for 3 hours, by hour 8 - refused {refusal}"
        )?;
    }
    Ok(())
}
