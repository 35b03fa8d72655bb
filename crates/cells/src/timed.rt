// A sheet under a tariff, with the time of each standing task on each machine.
ghost use Rattle.std.specs.Prelude.{◌≡◌, length};
ghost use Rattle.sheets.specs.Book.{book};
ghost use Rattle.sheets.specs.Tasks.{max_tasks};
ghost use Rattle.cells.specs.Minutes.{HoldsStandingMinutes};

use model::PricedSheet;
use sheets::MAX_TASKS;
use tariffs::{MAX_MACHINES, Tariff};

pub mod all;
pub mod minutes;

// Memory for the minutes that each machine quotes for each task, 0 without a quote.
#[derive(Drop)]
pub struct MinutesTable {
    rows: [[u16; MAX_MACHINES]; MAX_TASKS],
    ghost whole: { length rows ≡ max_tasks },
}

// A sheet and its tariff, with the minutes that each machine quotes for each standing task. The tariff is asked for them
// once; afterwards it is asked only what those machines cost that are quick enough.
#[derive(Drop)]
pub struct TimedSheet<'a, 'b, T: Tariff> {
    pub priced: PricedSheet<'a, T>,
    table: &'b MinutesTable,
    ghost timed: { HoldsStandingMinutes (T.Tariff.meaning priced.tariff.now)
        (book priced.sheet.now).tasks table.now.rows },
}
