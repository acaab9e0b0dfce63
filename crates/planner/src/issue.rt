// Issuing a plan as a sheet, which uses the plan up.
ghost use Rattle.std.specs.Prelude.{◌≡◌, length};
ghost use Rattle.master.specs.Rows.{row_places};
ghost use Rattle.sheet.specs.Sheets.{sheet, room_refusal, filled, ToldApart};
ghost use Rattle.planner.specs.Issues.{issued};

use crate::answers::Plan;
use jobs::refusal::Refusal;
use sheet::write;

// A plan that was not issued, handed back with the reason.
#[derive(Drop)]
pub struct Unissued {
    pub refusal: Refusal,
    pub plan: Plan,
}

// Writes the sheet of the plan and answers its length. A buffer that is too short is left as it is,
// and the plan is handed back.
pub fn issue(plan: Plan, buffer: &mut [u8]) -> Result<usize, Unissued>
    ensures answer { result ≡ issued (room_refusal (length buffer.old)) plan }
    ensures bytes { buffer.new ≡ filled (room_refusal (length buffer.old)) (sheet plan.round plan.priced.cost (row_places plan.priced.row)) buffer.old }
    ensures apart { ToldApart }
{
    let written = write(plan.round, plan.priced.cost, &plan.priced.row, buffer);
    written.map_err(|refusal| Unissued { refusal, plan })
}
