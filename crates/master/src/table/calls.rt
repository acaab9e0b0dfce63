// Adding cuts to the table, reading them, and asking whether a row obeys them.
ghost use Rattle.std.specs.Prelude.{◌≡◌, ℕ, ◌<◌, ◌≤◌, false, List, [], ◌∷◌, ◌++◌, map, length};
ghost use Rattle.std.specs.List.{slice_get};
ghost use Rattle.jobs.specs.Refusals.{Answered};
ghost use Rattle.jobs.specs.Sets.{width, bits};
ghost use Rattle.jobs.specs.Words.{Exactly};
ghost use Rattle.master.specs.Cuts.{cut_of, Within, Covers, Leaves, Adds, UnlessPut, RulesOut, Breaks, Obeys, shown};
ghost use Rattle.master.specs.Refused.{cut_refusal};
ghost use Rattle.master.specs.Rows.{row_places, Group};
ghost use Rattle.master.specs.Tables.{held};

use crate::cut::{Addition, Cut};
use crate::offer::PLACES;
use crate::row::Row;
use crate::table::CutTable;
use arrayvec::ArrayVec;
use jobs::refusal::Refusal;
use jobs::set::JobSet;

// Whether the cuts have one place, and the set of the first is a part of the other's.
fn lies_within(part: Cut, whole: Cut) -> bool
    ensures { Exactly result (Within part whole) }
{
    part.place == whole.place && part.set.is_part_of(whole.set)
}

// Whether every job of the cut's set is given its place.
fn breaks(row: &Row, cut: Cut) -> bool
    ensures { Exactly result (Breaks (row_places row.now) cut) }
{
    cut.set.is_part_of(row.group(cut.place))
}

impl CutTable {
    // The table without cuts.
    pub fn new() -> CutTable
        ensures { held result ≡ [] }
    {
        CutTable {
            cuts: ArrayVec::new(),
        }
    }

    // How many cuts are held.
    pub fn len(&self) -> usize
        ensures { result ≡ length (held self.now) }
    {
        self.cuts.len()
    }

    // The place and the set of cut i, or nothing if fewer are held.
    pub fn cut(&self, i: usize) -> Option<(u8, JobSet)>
        ensures { result ≡ slice_get (map shown (held self.now)) i }
    {
        self.cuts.get(i).map(|cut| (cut.place, cut.set))
    }

    // Whether a held cut lies within the given one.
    // `lies_within` written out, in a call of its own: so the loop is as short as can be, wherever it comes to lie.
    #[inline(never)]
    fn covers(&self, new: Cut) -> bool
        ensures { Exactly result (Covers new (held self.now)) }
    {
        for cut in self.cuts.as_slice() {
            if cut.place == new.place && cut.set.is_part_of(new.set) {
                return true;
            }
        }
        false
    }

    // Removes the cuts that the given one lies within.
    fn remove_around(&mut self, new: Cut)
        ensures { Leaves new (held self.old) (held self.new) }
    {
        self.cuts.retain(|cut| !lies_within(new, *cut));
    }

    // Puts the cut last, unless a held one lies within it. The cuts that it lies within go.
    pub fn add(&mut self, place: u8, set: JobSet) -> Result<Addition, Refusal>
        ensures list { Answered (cut_refusal place) result (λ a. Adds (held self.old) (cut_of place set) a (held self.new)) }
        ensures meaning { RulesOut result (held self.old) (cut_of place set) (held self.new) }
        ensures same { UnlessPut result (self.new ≡ self.old) }
    {
        if place >= PLACES as u8 {
            return Err(Refusal::NoSuchPlace);
        }
        let new = Cut { place, set };
        if self.covers(new) {
            return Ok(Addition::Covered);
        }
        self.remove_around(new);
        // Where the table is full still, none went.
        if self.cuts.is_full() {
            return Ok(Addition::Full);
        }
        self.cuts.push(new);
        Ok(Addition::Put)
    }

    // Whether the row breaks none of the held cuts.
    pub fn obeys(&self, row: &Row) -> bool
        ensures { Exactly result (Obeys (row_places row.now) (held self.now)) }
    {
        for cut in self.cuts.as_slice() {
            if breaks(row, *cut) {
                return false;
            }
        }
        true
    }

    // Whether a row without jobs obeys the cuts. Where it does not, no row does.
    pub(crate) fn allows_start(&self) -> bool
        ensures { Exactly result (Obeys [] (held self.now)) }
    {
        !self
            .cuts
            .iter()
            .any(|cut| cut.set.is_part_of(JobSet::empty()))
    }

    // Whether a beginning of a row that obeys the cuts still does with the job put at the place.
    // `so_far` has the jobs that are at the place already.
    pub(crate) fn allows(&self, job: u32, place: u8, so_far: JobSet) -> bool
        ensures begun { job < width → (row : List ℕ) → length row ≡ job → Group row place (bits so_far) → Obeys row (held self.now) → Exactly result (Obeys (row ++ place ∷ []) (held self.now)) }
        ensures past { width ≤ job → result ≡ false }
    {
        match so_far.with(job) {
            Ok(set) => !self.covers(Cut { place, set }),
            Err(_) => false,
        }
    }
}
