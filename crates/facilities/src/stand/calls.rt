// Making a stand, and entering its rows.
ghost use Rattle.std.specs.Prelude.{◌≡◌, replicate, None};
ghost use Rattle.jobs.specs.Sets.{width};
ghost use Rattle.facilities.specs.Rows.{row_list, in_range, stand_refusal, Entry};
ghost use Rattle.facilities.specs.Stands.{RowEntered};

use crate::rows::Rows;
use crate::stand::Stand;
use crate::stand::row::StandRow;
use jobs::refusal::Refusal;
use jobs::set::JOBS;

// Whether a stand with this supply takes rows.
fn in_range(supply: u32) -> bool
    ensures { result ≡ in_range supply }
{
    (1..=255).contains(&supply)
}

impl Stand {
    // A stand with this supply and no row. With a supply out of range it never takes one.
    pub fn new(supply: u32) -> Stand
        ensures supply { result.supply ≡ supply }
        ensures rows { row_list result.rows ≡ replicate width None }
    {
        let rows = Rows::new();
        Stand { supply, rows }
    }

    // Enters the row of a job, in place of the old one. Its numbers come one by one, as they are typed.
    pub fn row(
        &mut self,
        job: u32,
        release: u32,
        takes: u32,
        due: u32,
        draw: u32,
    ) -> Result<(), Refusal>
        ensures { Entry (stand_refusal self.old.supply job release takes due draw) result self.old self.new (RowEntered job release takes due draw self.old self.new) }
    {
        if !in_range(self.supply) {
            return Err(Refusal::SupplyOutOfRange);
        }
        if job >= JOBS as u32 {
            return Err(Refusal::NoSuchJob);
        }
        let row = StandRow::of(release, takes, due, draw, self.supply)?;
        self.rows.put(job, row);
        Ok(())
    }
}
