// A job and a place that a tariff can have.
ghost use Rattle.std.specs.Prelude.{◌<◌};
ghost use Rattle.jobs.specs.Sets.{width};
ghost use Rattle.master.specs.Refused.{most_places};

#[derive(Clone, Copy)]
pub struct Pair {
    pub job: usize,
    pub place: u8,
    ghost job_there: { job < width },
    ghost place_there: { place < most_places },
}
