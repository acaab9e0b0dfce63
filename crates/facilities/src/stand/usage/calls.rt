// Hours are drawn on for a job that is put into the day, and given back.
ghost use Rattle.std.specs.Prelude.{◌≡◌, ℕ, ◌+◌, ◌-◌, ◌^◌, ◌<◌, ◌≤◌, replicate};
ghost use Rattle.jobs.specs.Words.{Exactly};
ghost use Rattle.facilities.specs.Rows.{hours};
ghost use Rattle.facilities.specs.Draws.{draw_at, drawn};
ghost use Rattle.facilities.specs.Usages.{table, at};

use crate::stand::row::StandRow;
use crate::stand::usage::{ENTRIES, Usage};

// A run ends within the day: each call requires it, since a type of a row with its start would be made for every hour
// that is tried.
impl Usage {
    // Nothing is drawn in any hour.
    pub(crate) fn new() -> Usage
        ensures { table result ≡ replicate hours 0 }
    {
        Usage {
            drawn: [0; ENTRIES],
        }
    }

    // Whether the supply also feeds this job, if it starts at that hour.
    pub(crate) fn allows(&self, row: &StandRow, start: u16, supply: u32) -> bool
        requires { start + row.now.window.takes ≤ hours }
        ensures { Exactly result ((h : ℕ) → start ≤ h → h < start + row.now.window.takes → at (table self.now) h + draw_at row.now (h - start) ≤ supply) }
    {
        let hours = &self.drawn[row.hours(start)];
        // A chain that ends in `all` gets no proof here.
        for (hour, drawn) in hours.iter().enumerate() {
            if u32::from(*drawn) + u32::from(row.draw_at(hour)) > supply {
                return false;
            }
        }
        true
    }

    // The job draws on its hours.
    pub(crate) fn fill(&mut self, row: &StandRow, start: u16)
        requires within { start + row.now.window.takes ≤ hours }
        requires room { (h : ℕ) → start ≤ h → h < start + row.now.window.takes → at (table self.old) h + draw_at row.now (h - start) < 2 ^ 16 }
        ensures { (h : ℕ) → h < hours → at (table self.new) h ≡ at (table self.old) h + drawn (draw_at row.now) row.now.window.takes start h }
    {
        let hours = &mut self.drawn[row.hours(start)];
        for (hour, drawn) in hours.iter_mut().enumerate() {
            *drawn += row.draw_at(hour);
        }
    }

    // The job's hours are given back. This stands beside `fill`, since each requires what makes its own sum fit.
    pub(crate) fn free(&mut self, row: &StandRow, start: u16)
        requires within { start + row.now.window.takes ≤ hours }
        requires there { (h : ℕ) → h < hours → drawn (draw_at row.now) row.now.window.takes start h ≤ at (table self.old) h }
        ensures { (h : ℕ) → h < hours → at (table self.new) h + drawn (draw_at row.now) row.now.window.takes start h ≡ at (table self.old) h }
    {
        let hours = &mut self.drawn[row.hours(start)];
        for (hour, drawn) in hours.iter_mut().enumerate() {
            *drawn -= row.draw_at(hour);
        }
    }
}
