// Small instances at random: the facilities against plain enumeration.
use crate::enumeration::{Instance, Task};
use crate::made::{bench_of, stand_of};
use facilities::facility::Facility;
use jobs::refusal::Refusal;
use jobs::set::JobSet;
use std::test::Fail;
use xorshift::Random;

const INSTANCES: u32 = 400;

// A task of at most 4 hours, within 8 hours, that draws 1 to 3.
fn task(random: &mut Random) -> Task {
    let takes = random.below(4) + 1;
    let release = random.below(9 - takes);
    let due = release + takes + random.below(9 - takes - release);
    let draw = random.below(3) + 1;
    let wanted = random.below(5) > 0;
    Task {
        release,
        takes,
        due,
        draw,
        wanted,
    }
}

fn instance(random: &mut Random) -> Instance {
    let supply = random.below(3) + 3;
    let tasks = [task(random), task(random), task(random), task(random)];
    Instance { supply, tasks }
}

// The tasks that are wanted.
fn set_of(instance: &Instance) -> Result<JobSet, Refusal> {
    let mut set = JobSet::empty();
    for (job, task) in (0..16u32).zip(&instance.tasks) {
        if task.wanted {
            set = set.with(job)?;
        }
    }
    Ok(set)
}

fn bench_verdict(instance: &Instance) -> Result<bool, Refusal> {
    let rows = instance.tasks.map(|t| [t.release, t.takes, t.due]);
    Ok(bench_of(&rows)?.verdict(set_of(instance)?))
}

fn stand_verdict(instance: &Instance) -> Result<bool, Refusal> {
    let rows = instance.tasks.map(|t| [t.release, t.takes, t.due, t.draw]);
    Ok(stand_of(instance.supply, &rows)?.verdict(set_of(instance)?))
}

// How many instances fit, if the verdict on each is what the enumeration says.
fn fitting<V: Fn(&Instance) -> Result<bool, Refusal>, E: Fn(&Instance) -> bool>(
    seed: u32,
    verdict: V,
    enumerated: E,
) -> Result<u32, Fail>
    requires verdict { V.IsAlwaysCallable verdict }
    requires enumerated { E.IsAlwaysCallable enumerated }
{
    let mut random = Random::new(seed);
    let mut fitting = 0u32;
    for _ in 0..INSTANCES {
        let instance = instance(&mut random);
        let fits = enumerated(&instance);
        if verdict(&instance)? != fits {
            return Err(Fail::new("not as enumerated"));
        }
        fitting = fitting.wrapping_add(u32::from(fits));
    }
    Ok(fitting)
}

#[test]
fn bench_as_enumerated(rt: HostRuntime) -> Result<(), Fail> {
    let fitting = fitting(
        2463534242,
        bench_verdict,
        |instance| instance.fits_one_by_one(),
    )?;
    assert!(rt; fitting > 60 && fitting < 340, "both answers are common");
    Ok(())
}

#[test]
fn stand_as_enumerated(rt: HostRuntime) -> Result<(), Fail> {
    let fitting = fitting(521288629, stand_verdict, |instance| instance.fits_supply())?;
    assert!(rt; fitting > 60 && fitting < 340, "both answers are common");
    Ok(())
}
