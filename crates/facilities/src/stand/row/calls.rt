// What is asked of a row.
ghost use Rattle.std.specs.Prelude.{◌≡◌, ◌+◌, ◌≤◌, ◌&&◌, None, IfOk};
ghost use Rattle.jobs.specs.declared.refusal.Refusal.TheVariants.{BadRow};
ghost use Rattle.jobs.specs.Refusals.{Answered, unless};
ghost use Rattle.jobs.specs.Words.{Exactly};
ghost use Rattle.facilities.specs.Draws.{draw_at, Fed};
ghost use Rattle.facilities.specs.Rows.{in_day, feeds, Fits};
ghost use Rattle.facilities.specs.Stands.{RowOf};

use crate::rows::Window;
use crate::stand::row::StandRow;
use jobs::refusal::Refusal;
use std::ops::Range;

impl StandRow {
    // The row with these numbers, if they go together and the supply feeds it.
    pub(crate) fn of(
        release: u32,
        takes: u32,
        due: u32,
        draw: u32,
        supply: u32,
    ) -> Result<StandRow, Refusal>
        requires { supply ≤ 255 }
        ensures numbers { Answered (unless (in_day release takes due && feeds supply draw) BadRow None) result (RowOf release takes due draw) }
        ensures fed { IfOk result (Fed supply) }
    {
        let window = Window::of(release, takes, due)?;
        if draw == 0 || draw > supply {
            return Err(Refusal::BadRow);
        }
        Ok(StandRow {
            window,
            draw: draw as u16,
        })
    }

    // Whether the job may start at that hour, and then ends in time.
    pub(crate) fn fits(&self, start: u16) -> bool
        ensures { Exactly result (Fits self.now.window start) }
    {
        self.window.fits(start)
    }

    // The hours in which the job runs, if it starts at that hour.
    pub(crate) fn hours(&self, start: u16) -> Range<usize>
        ensures start { result.start ≡ start }
        ensures end { result.end ≡ start + self.now.window.takes }
    {
        let start = usize::from(start);
        start..start + usize::from(self.window.takes())
    }

    // What the job draws in an hour, counted from its start.
    pub(crate) fn draw_at(&self, hour: usize) -> u16
        ensures { result ≡ draw_at self.now hour }
    {
        self.draw
    }
}
