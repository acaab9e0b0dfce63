// What can be asked of a set of jobs, and made of it.
ghost use Rattle.std.specs.Prelude.{◌≡◌, ℕ, ◌^◌, ◌⊎◌, length, ◌≢◌, MatchOption};
ghost use Rattle.jobs.specs.Refusals.{Answered};
ghost use Rattle.jobs.specs.Sets.{bits, Has, Part, without, with_job, joined, jobs_of, Lowest, job_refusal};
ghost use Rattle.jobs.specs.Words.{Same, Exactly};

use crate::refusal::Refusal;
use crate::set::{JOBS, JobSet};

impl JobSet {
    // The set with no job.
    pub fn empty() -> JobSet
        ensures value { bits result ≡ 0 }
        ensures members { (j : ℕ) → Has (bits result) j → ⊥ }
    {
        JobSet { bits: 0 }
    }

    // The set with just this job.
    pub fn one(job: u32) -> Result<JobSet, Refusal>
        ensures value { Answered (job_refusal job) result (λ s. bits s ≡ 2 ^ job) }
        ensures members { Answered (job_refusal job) result (λ s. (j : ℕ) → Same (Has (bits s) j) (j ≡ job)) }
    {
        if job >= JOBS as u32 {
            return Err(Refusal::NoSuchJob);
        }
        Ok(JobSet { bits: 1 << job })
    }

    // Whether the job is in the set. No set has a job that is not below JOBS.
    pub fn contains(self, job: u32) -> bool
        ensures { Exactly result (Has (bits self) job) }
    {
        if job >= JOBS as u32 {
            return false;
        }
        (self.bits >> job) % 2 == 1
    }

    // The set and this job.
    pub fn with(self, job: u32) -> Result<JobSet, Refusal>
        ensures value { Answered (job_refusal job) result (λ s. bits s ≡ with_job (bits self) job) }
        ensures members { Answered (job_refusal job) result (λ s. (j : ℕ) → Same (Has (bits s) j) (Has (bits self) j ⊎ (j ≡ job))) }
    {
        if job >= JOBS as u32 {
            return Err(Refusal::NoSuchJob);
        }
        if self.contains(job) {
            return Ok(self);
        }
        Ok(JobSet {
            bits: self.bits + (1 << job),
        })
    }

    // The set less this job, if it is in it.
    pub fn without(self, job: u32) -> JobSet
        ensures value { bits result ≡ without (bits self) job }
        ensures members { (j : ℕ) → Same (Has (bits result) j) (Has (bits self) j × (j ≢ job)) }
    {
        if job >= JOBS as u32 {
            return self;
        }
        if !self.contains(job) {
            return self;
        }
        JobSet {
            bits: self.bits - (1 << job),
        }
    }

    // The jobs of either set.
    pub fn join(self, other: JobSet) -> JobSet
        ensures value { bits result ≡ joined (bits self) (bits other) }
        ensures members { (j : ℕ) → Same (Has (bits result) j) (Has (bits self) j ⊎ Has (bits other) j) }
    {
        JobSet {
            bits: self.bits | other.bits,
        }
    }

    // Whether each job of this set is in the other.
    pub fn is_part_of(self, whole: JobSet) -> bool
        ensures { Exactly result (Part (bits self) (bits whole)) }
    {
        self.bits & whole.bits == self.bits
    }

    // How many jobs the set has.
    pub fn len(self) -> usize
        ensures { result ≡ length (jobs_of (bits self)) }
    {
        self.bits.count_ones() as usize
    }

    // The lowest job of the set, if it has one.
    pub fn lowest(self) -> Option<u32>
        ensures { MatchOption result ((j : ℕ) → Has (bits self) j → ⊥) (Lowest (bits self)) }
    {
        // `find` over these numbers gets no proof.
        for job in 0..JOBS as u32 {
            if self.contains(job) {
                return Some(job);
            }
        }
        None
    }
}
