// The sheet of a plan: its printed form.
#![tactic(auto)]

mod lines;

ghost use Rattle.std.specs.Prelude.{◌≡◌, ℕ, length};
ghost use Rattle.jobs.specs.Refusals.{Answered};
ghost use Rattle.master.specs.Rows.{row_places};
ghost use Rattle.sheet.specs.Sheets.{sheet, room_refusal, answered, filled, FitsRoom, ToldApart, NumeralsPlain};

use crate::lines::{put_line, put_lines};
use arrayvec::ArrayString;
use jobs::refusal::Refusal;
use master::row::Row;

// How many bytes a buffer for a sheet has at least. No sheet is longer.
pub const SHEET_ROOM: usize = 300;

// Refuses a buffer of too few bytes.
fn check_room(room: usize) -> Result<(), Refusal>
    ensures { Answered (room_refusal room) result (λ _. Unit {0}) }
{
    if room < SHEET_ROOM {
        return Err(Refusal::BufferTooShort);
    }
    Ok(())
}

// The whole sheet. There is room for every row, so nothing here can fail.
#[tactic(auto, unfolding(crate::specs::Sheets::head))]
fn sheet_of(round: u16, cost: u32, row: &Row) -> ArrayString<SHEET_ROOM>
    ensures { result.bytes ≡ sheet round cost (row_places row.now) }
{
    let mut sheet = ArrayString::new();
    put_line(&mut sheet, "plan round ", u32::from(round), " cost ", cost);
    let places = row.places();
    put_lines(&mut sheet, places);
    sheet
}

// Writes the sheet of a plan to the front of the buffer, and answers its length.
pub fn write(round: u16, cost: u32, row: &Row, buffer: &mut [u8]) -> Result<usize, Refusal>
    ensures answer { result ≡ answered (room_refusal (length buffer.old)) (sheet round cost (row_places row.now)) }
    ensures bytes { buffer.new ≡ filled (room_refusal (length buffer.old)) (sheet round cost (row_places row.now)) buffer.old }
    ensures short { FitsRoom result }
    ensures apart { ToldApart }
    ensures numerals { NumeralsPlain }
{
    check_room(buffer.len())?;
    let sheet = sheet_of(round, cost, row);
    buffer[..sheet.len()].copy_from_slice(sheet.as_bytes());
    Ok(sheet.len())
}
