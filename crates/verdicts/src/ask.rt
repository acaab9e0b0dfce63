// A list of questions put to a workshop with a number of answers granted.
use crate::sets::sets;
use crate::show::{Failure, Named};
use jobs::refusal::Refusal;
use jobs::set::JobSet;
use workshops::workshop::Workshop;

#[derive(Clone, Copy)]
struct Question {
    place: u8,
    set: JobSet,
}

// The bench is asked for all jobs, then with each one left out, and once again for jobs 0 and 2.
fn asked() -> Result<[Question; 7], Refusal> {
    let [none, _, b, ab, _, ac, bc, abc] = sets()?;
    Ok([
        Question { place: 0, set: abc },
        Question { place: 0, set: bc },
        Question { place: 0, set: ac },
        Question { place: 0, set: ab },
        Question {
            place: 1,
            set: none,
        },
        Question { place: 0, set: ac },
        Question { place: 1, set: b },
    ])
}

pub(crate) fn questions<W: Workshop + Drop>(
    rt: &HostRuntime,
    amount: u16,
    workshop: W,
) -> Result<(), Failure> {
    let mut workshop = workshop;
    workshop.grant(amount);
    for question in asked()? {
        let place = question.place;
        let jobs = Named(question.set);
        match workshop.verdict(place, question.set)? {
            Ok(true) => println!(rt; "grant {amount}, place {place}: {jobs} - yes")?,
            Ok(false) => println!(rt; "grant {amount}, place {place}: {jobs} - no")?,
            Err(fault) => {
                let cause = fault.cause;
                let depth = fault.depth;
                println!(rt;
                    "grant {amount}, place {place}: {jobs} - stopped, cause {cause}, depth {depth}"
                )?;
            }
        }
    }
    Ok(())
}
