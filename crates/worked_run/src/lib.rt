// The facilities and prices of the worked run: three jobs, a bench and a test stand. On the bench the jobs 0 and 1
// exclude each other.
#![tactic(auto)]

ghost use Rattle.std.specs.Prelude.{◌≡◌, None};
ghost use Rattle.jobs.specs.Refusals.{Answered};
ghost use Rattle.facilities.specs.Rows.{row_list};
ghost use Rattle.worked_run.specs.Rows.{BenchRows, StandRows};

use facilities::bench::Bench;
use facilities::stand::Stand;
use jobs::refusal::Refusal;

// The price of each pair: job, place, amount.
pub const PRICES: [(u32, u32, u32); 6] = [
    (0, 0, 100),
    (0, 1, 150),
    (1, 0, 100),
    (1, 1, 120),
    (2, 0, 50),
    (2, 1, 80),
];

pub fn bench() -> Result<Bench, Refusal>
    ensures { Answered None result (λ b. BenchRows (row_list b.rows)) }
{
    let mut bench = Bench::new();
    bench.row(0, 0, 3, 5)?;
    bench.row(1, 0, 3, 5)?;
    bench.row(2, 10, 1, 12)?;
    Ok(bench)
}

pub fn stand() -> Result<Stand, Refusal>
    ensures { Answered None result (λ s. (s.supply ≡ 4) × StandRows (row_list s.rows)) }
{
    let mut stand = Stand::new(4);
    stand.row(0, 0, 3, 5, 2)?;
    stand.row(1, 0, 3, 5, 2)?;
    stand.row(2, 10, 1, 12, 1)?;
    Ok(stand)
}
