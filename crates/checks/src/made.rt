// Facilities and sets made from tables.
use facilities::bench::Bench;
use facilities::stand::Stand;
use jobs::refusal::Refusal;
use jobs::set::JobSet;

// The set of these jobs.
pub fn set_of(jobs: &[u32]) -> Result<JobSet, Refusal> {
    let mut set = JobSet::empty();
    for job in jobs {
        set = set.with(*job)?;
    }
    Ok(set)
}

// A bench with these rows (from, for, by) for the jobs from 0 on.
pub fn bench_of(rows: &[[u32; 3]]) -> Result<Bench, Refusal> {
    let mut bench = Bench::new();
    for (job, [release, takes, due]) in (0..u32::MAX).zip(rows) {
        bench.row(job, *release, *takes, *due)?;
    }
    Ok(bench)
}

// A stand with this supply and these rows (from, for, by, draw) for the jobs from 0 on.
pub fn stand_of(supply: u32, rows: &[[u32; 4]]) -> Result<Stand, Refusal> {
    let mut stand = Stand::new(supply);
    for (job, [release, takes, due, draw]) in (0..u32::MAX).zip(rows) {
        stand.row(job, *release, *takes, *due, *draw)?;
    }
    Ok(stand)
}
