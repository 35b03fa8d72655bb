// The places of cells.
ghost use Rattle.std.specs.Prelude.{◌≡◌, ◌<◌, ◌≤◌};
ghost use Rattle.sheets.specs.Book.{book};
ghost use Rattle.cells.specs.Layout.{layout_of, place_in, size};

use crate::{Layout, TimedSheet, span};
use costs::Cost;
use tariffs::Tariff;

impl Layout {
    // The layout of the cells for a sheet under a tariff.
    pub(crate) fn of<T: Tariff>(timed: &TimedSheet<T>) -> Layout
        ensures { result ≡ layout_of (T.Tariff.meaning timed.now.priced.tariff.now) (book timed.now.priced.sheet.now) }
    {
        Layout {
            stages: timed.priced.sheet.stage_count() as u32,
            width: span(timed) + 1,
        }
    }

    // Where the cell of the stages from this one on within so many minutes stands. No other place is reckoned anywhere.
    pub(crate) fn place(self, stage: u32, minutes: u32) -> usize
        ensures value { result ≡ place_in self stage minutes }
        ensures inside { stage ≤ self.stages → minutes < self.width → result < size self }
    {
        stage as usize * self.width as usize + minutes as usize
    }

    // How many cells there are.
    pub(crate) fn size(self) -> usize
        ensures { result ≡ size self }
    {
        (self.stages as usize + 1) * self.width as usize
    }
}
