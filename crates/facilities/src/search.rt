// One depth-first search over any trial.
ghost use Rattle.std.specs.Prelude.{◌≡◌, ◌≤◌, []};
ghost use Rattle.facilities.specs.Trials.{most_levels, most_choices};
ghost use Rattle.facilities.specs.Searches.{Answers, OneFirst};

use crate::trial::Trial;
use arrayvec::ArrayVec;
use jobs::set::JOBS;

// The first allowed list of full length, if there is one. The trial is left with the choices of that list, or with none.
pub(crate) fn first<T: Trial>(trial: &mut T) -> Option<ArrayVec<u16, JOBS>>
    requires fresh { T.Trial.taken trial.old ≡ [] }
    ensures same { T.Trial.problem trial.new ≡ T.Trial.problem trial.old }
    ensures answer { Answers T.Trial (T.Trial.problem trial.old) result (T.Trial.taken trial.new) }
    ensures one { OneFirst T.Trial (T.Trial.problem trial.old) }
    ensures levels { T.Trial.levels (T.Trial.problem trial.old) ≤ most_levels }
    ensures choices { T.Trial.choices (T.Trial.problem trial.old) ≤ most_choices }
{
    let levels = trial.depth();
    let choices = trial.width();
    // The trial's own list is known to proofs alone.
    let mut found = ArrayVec::new();
    let mut next = 0u16;
    while found.len() < levels {
        if next < choices {
            if trial.take(next) {
                found.push(next);
                next = 0;
            } else {
                next += 1;
            }
        } else {
            let last = found.pop()?;
            trial.undo();
            next = last + 1;
        }
    }
    Some(found)
}
