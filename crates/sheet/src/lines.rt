// The lines of a sheet, each appended to what stands so far.
ghost use Rattle.std.specs.Prelude.{◌≡◌, ℕ, ◌+◌, ◌≤◌, ◌++◌, length};
ghost use Rattle.arrayvec.specs.ArrayString.{array_string_len};
ghost use Rattle.jobs.specs.Sets.{width};
ghost use Rattle.sheet.specs.Sheets.{numeral, pair, feed, lines, no_tail, sheet_room};

use crate::SHEET_ROOM;
use arrayvec::ArrayString;
use itoa::Buffer;

// A number in decimal.
#[tactic(auto, using(crate::proofs::Numbers::numeral_decimal))]
fn put_number(sheet: &mut ArrayString<SHEET_ROOM>, n: u32)
    requires { array_string_len sheet.old + length (numeral n) ≤ sheet_room }
    ensures bytes { sheet.new.bytes ≡ sheet.old.bytes ++ numeral n }
    ensures len { array_string_len sheet.new ≡ array_string_len sheet.old + length (numeral n) }
{
    let mut digits = Buffer::new();
    sheet.push_str(digits.format(n));
}

// A line of two words, each with its number.
#[tactic(auto, using(crate::proofs::Lining::length_words, crate::proofs::Lining::words_joined))]
pub(crate) fn put_line(sheet: &mut ArrayString<SHEET_ROOM>, word: &str, n: u32, other: &str, m: u32)
    requires { array_string_len sheet.old + length (pair word.now n other.now m ++ feed) ≤ sheet_room }
    ensures { sheet.new.bytes ≡ sheet.old.bytes ++ (pair word.now n other.now m ++ feed) }
{
    sheet.push_str(word);
    put_number(sheet, n);
    sheet.push_str(other);
    put_number(sheet, m);
    sheet.push_str("\n");
}

// A line for each job, from job 0 on.
#[tactic(auto, using(crate::proofs::Lining::lines_more, crate::proofs::Lining::line_fits))]
pub(crate) fn put_lines(sheet: &mut ArrayString<SHEET_ROOM>, places: &[u8])
    requires few { length places.now ≤ width }
    requires room { array_string_len sheet.old + length (lines no_tail 0 places.now) ≤ sheet_room }
    ensures { sheet.new.bytes ≡ sheet.old.bytes ++ lines no_tail 0 places.now }
{
    for (job, &place) in places.iter().enumerate() {
        put_line(sheet, "job ", job as u32, " place ", u32::from(place));
    }
}
