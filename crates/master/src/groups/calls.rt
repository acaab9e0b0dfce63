// Reading and changing the jobs at a place.
ghost use Rattle.std.specs.Prelude.{◌≡◌, ℕ, ◌<◌};
ghost use Rattle.jobs.specs.Sets.{bits};
ghost use Rattle.master.specs.Refused.{most_places};
ghost use Rattle.master.specs.Walks.{group_at, JoinsGroup, QuitsGroup};

use crate::groups::Groups;
use crate::offer::PLACES;
use crate::pair::Pair;
use crate::sets::include;
use jobs::set::JobSet;

impl Groups {
    // No job anywhere.
    pub(crate) fn none() -> Groups
        ensures { (p : ℕ) → group_at result p ≡ 0 }
    {
        Groups {
            sets: [JobSet::empty(); PLACES],
        }
    }

    // All jobs at the place, so no pair of it and a job.
    pub(crate) fn at(&self, place: usize) -> JobSet
        requires { place < most_places }
        ensures { bits result ≡ group_at self.now place }
    {
        self.sets[place]
    }

    pub(crate) fn put(&mut self, pair: Pair)
        ensures { JoinsGroup self.old pair.place pair.job self.new }
    {
        let place = pair.place as usize;
        self.sets[place] = include(self.sets[place], pair.job as u32);
    }

    pub(crate) fn take(&mut self, pair: Pair)
        ensures { QuitsGroup self.old pair.place pair.job self.new }
    {
        let place = pair.place as usize;
        self.sets[place] = self.sets[place].without(pair.job as u32);
    }
}
