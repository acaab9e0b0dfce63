// Listing the jobs of a set, from the lowest.
ghost use Rattle.std.specs.Prelude.{◌≡◌, ℕ, ◌<◌, ◌≤◌, [], ◌∷◌, ◌++◌, length, MatchOption, slice_index};
ghost use Rattle.std.specs.Iterator.{YieldsFirst, YieldsLast};
ghost use Rattle.std.specs.Iterator.Runs.{YieldsInOrder, YieldsInReverse};
ghost use Rattle.jobs.specs.Lists.{listed};
ghost use Rattle.jobs.specs.Sets.{width, bits, jobs_of};

use crate::list::JobList;
use crate::set::{JOBS, JobSet};
use arrayvec::{ArrayVec, IntoIter};

impl JobList {
    fn empty() -> JobList
        ensures { listed result ≡ [] }
    {
        JobList {
            jobs: [0; JOBS],
            len: 0,
        }
    }

    fn push(&mut self, job: u32)
        requires { length (listed self.old) < width }
        ensures { listed self.new ≡ listed self.old ++ job ∷ [] }
    {
        self.jobs[self.len] = job;
        self.len += 1;
    }

    // The jobs that are listed, in order.
    pub fn as_slice(&self) -> &[u32]
        ensures { result.now ≡ listed self.now }
    {
        &self.jobs[..self.len]
    }

    // How many jobs are listed.
    pub fn len(&self) -> usize
        ensures { result ≡ length (listed self.now) }
    {
        self.as_slice().len()
    }

    // The job at a place of the list, if the list is so long.
    pub fn get(&self, place: usize) -> Option<u32>
        ensures { MatchOption result (length (listed self.now) ≤ place) (λ job. (place < length (listed self.now)) × (job ≡ slice_index (listed self.now) place)) }
    {
        if place < self.len {
            Some(self.jobs[place])
        } else {
            None
        }
    }
}

// A loop over a list goes over its jobs in order.
impl IntoIterator for JobList {
    type Item = u32;

    type IntoIter = IntoIter<u32, JOBS>;

    ghost into_iter_gives = { λ l it. (it ≡ listed l)
        × YieldsInOrder (YieldsFirst {A = ℕ} (λ rest. rest)) (λ rest. rest)
        × YieldsInReverse (YieldsLast {A = ℕ} (λ rest. rest)) (λ rest. rest) };

    fn into_iter(self) -> IntoIter<u32, JOBS> {
        let mut jobs = ArrayVec::from(self.jobs);
        jobs.truncate(self.len);
        jobs.into_iter()
    }
}

impl JobSet {
    // The jobs of the set, from the lowest.
    pub fn jobs(self) -> JobList
        ensures { listed result ≡ jobs_of (bits self) }
    {
        let mut jobs = JobList::empty();
        for job in 0..JOBS as u32 {
            if self.contains(job) {
                jobs.push(job);
            }
        }
        jobs
    }
}
