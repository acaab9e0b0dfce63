// The moves of the search.
ghost use Rattle.std.specs.Prelude.{◌≡◌, ℕ, ◌+◌, ◌-◌, ◌<◌, ◌≤◌, replicate, None};
ghost use Rattle.jobs.specs.Sets.{width};
ghost use Rattle.master.specs.Refused.{most_places};
ghost use Rattle.master.specs.Walks.{group_at, last_place, Spare, Skips, Takes, Deepens, Backs};

use crate::groups::Groups;
use crate::pair::Pair;
use crate::priced::Priced;
use crate::row::Row;
use crate::walk::Walk;
use jobs::set::JOBS;

impl Walk {
    // Before the first place of the first job.
    pub(crate) fn start() -> Walk
        ensures row { result.row ≡ replicate width 0 }
        ensures totals { result.totals ≡ replicate width 0 }
        ensures groups { (p : ℕ) → group_at result.groups p ≡ 0 }
        ensures depth { result.depth ≡ 0 }
        ensures best { result.best ≡ None }
    {
        Walk {
            row: [0; JOBS],
            totals: [0; JOBS],
            groups: Groups::none(),
            depth: 0,
            best: None,
        }
    }

    // To the place after this one, for the same job.
    pub(crate) fn skip(&mut self, pair: Pair)
        ensures { Skips self.old pair.job pair.place self.old.best self.new }
    {
        self.row[pair.job] = pair.place + 1;
    }

    // The row with this pair is whole, and the best found.
    pub(crate) fn take(&mut self, pair: Pair, jobs: u8, cost: u32)
        requires few { jobs ≤ width }
        requires spare { Spare jobs self.old.row }
        ensures { Takes self.old pair.job pair.place jobs cost self.new }
    {
        let places = self.row;
        let row = Row::of(places, jobs);
        self.best = Some(Priced { row, cost });
        self.skip(pair);
    }

    // On to the next job, from this pair and the total so far.
    pub(crate) fn deepen(&mut self, pair: Pair, total: u32)
        requires deeper { pair.job + 1 < width }
        ensures { Deepens self.old pair.job pair.place total self.new }
    {
        let next = pair.job + 1;
        self.groups.put(pair);
        self.row[next] = 0;
        self.totals[next] = total;
        self.depth = next;
    }

    // Back to the job before, and there to the next place.
    pub(crate) fn back(&mut self)
        requires place { last_place self.old < most_places }
        requires begun { 0 < self.old.depth }
        ensures { Backs self.old self.new }
    {
        let job = self.depth - 1;
        let place = self.row[job];
        let pair = Pair { job, place };
        self.groups.take(pair);
        self.row[job] = place + 1;
        self.depth = job;
    }
}
