// What can be asked of a row.
ghost use Rattle.std.specs.Prelude.{◌≡◌, ℕ, ◌≤◌, length, take, slice_index};
ghost use Rattle.std.specs.List.{slice_get};
ghost use Rattle.jobs.specs.Refusals.{Answered};
ghost use Rattle.jobs.specs.Sets.{width, bits};
ghost use Rattle.jobs.specs.Words.{Exactly};
ghost use Rattle.master.specs.Refused.{jobs_refusal};
ghost use Rattle.master.specs.Rows.{row_places, Group};

use crate::row::Row;
use crate::sets::include;
use jobs::refusal::Refusal;
use jobs::set::{JOBS, JobSet};

impl Row {
    // The row of the first `jobs` entries; those past them must be 0.
    pub(crate) fn of(places: [u8; JOBS], jobs: u8) -> Row
        requires few { jobs ≤ width }
        requires spare { (k : ℕ) → jobs ≤ k → slice_index places k ≡ 0 }
        ensures { row_places result ≡ take jobs places }
    {
        Row { places, jobs }
    }

    // The row that gives each job the place at its number.
    pub fn new(places: &[u8]) -> Result<Row, Refusal>
        ensures { Answered (jobs_refusal (length places.now)) result (λ row. row_places row ≡ places.now) }
    {
        let jobs = places.len();
        if jobs < 1 || jobs > JOBS {
            return Err(Refusal::JobsOutOfRange);
        }
        let mut row = [0; JOBS];
        row[..jobs].copy_from_slice(places);
        Ok(Row::of(row, jobs as u8))
    }

    // How many jobs the row has.
    pub fn jobs(&self) -> u8
        ensures { result ≡ length (row_places self.now) }
    {
        self.jobs
    }

    // The places of the jobs, in order.
    pub fn places(&self) -> &[u8]
        ensures { result.now ≡ row_places self.now }
    {
        &self.places[..usize::from(self.jobs)]
    }

    // The place that the job is given, if the row has the job.
    pub fn place(&self, job: u32) -> Option<u8>
        ensures { result ≡ slice_get (row_places self.now) job }
    {
        self.places().get(job as usize).copied()
    }

    // The set of the jobs that are given the place.
    pub fn group(&self, place: u8) -> JobSet
        ensures { Group (row_places self.now) place (bits result) }
    {
        let mut set = JobSet::empty();
        for (job, at) in self.places().iter().enumerate() {
            if *at == place {
                set = include(set, job as u32);
            }
        }
        set
    }

    // Whether both rows give the same places to the same jobs.
    pub fn same(&self, other: &Row) -> bool
        ensures { Exactly result (row_places self.now ≡ row_places other.now) }
    {
        self == other
    }
}
