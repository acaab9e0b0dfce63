// A facility means the family of the job sets that it can schedule.
ghost use Rattle.std.specs.Prelude.{ℕ};
ghost use Rattle.jobs.specs.Sets.{bits, Part};
ghost use Rattle.jobs.specs.Words.{Exactly};

use jobs::set::JobSet;

pub trait Facility {
    // The sets that it can schedule, each by its number. The empty set need not be one of them.
    ghost family: { Self → ℕ → Type 0 };

    // Whether the facility can schedule the set.
    fn verdict(&self, set: JobSet) -> bool
        ensures { Exactly result (family self.now (bits set)) };

    ghost parts: { (f : Self) (part whole : ℕ) → Part part whole → family f whole → family f part };
}
