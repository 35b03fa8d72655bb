// A sheet under a tariff, with the minutes of struck tasks too.
ghost use Rattle.std.specs.Prelude.{◌≡◌, drop, length};
ghost use Rattle.sheets.specs.Book.{book};
ghost use Rattle.cells.specs.Minutes.{HoldsMinutes};

use crate::timed::minutes::ask_minutes;
use crate::{MinutesTable, TimedSheet};
use model::PricedSheet;
use tariffs::Tariff;

impl<'a, 'b, T: Tariff> TimedSheet<'a, 'b, T> {
    // Asks the tariff for the minutes of all tasks, struck ones too, and keeps them in the table while it is lent. Rows past
    // the tasks stay as they were. Questions go by standing tasks alone and take `of_standing`; no call here reads the row of
    // a struck task, so that the contract alone tells what stands there.
    pub fn of(priced: &PricedSheet<'a, T>, table: &'b mut MinutesTable) -> TimedSheet<'a, 'b, T>
        ensures priced { result.priced ≡ priced.now }
        ensures minutes { let tasks = (book priced.now.sheet.now).tasks in
            HoldsMinutes (T.Tariff.meaning priced.now.tariff.now) tasks result.table.now.rows }
        ensures behind { let count = length (book priced.now.sheet.now).tasks in
            drop count result.table.now.rows ≡ drop count table.old.rows }
    {
        for (number, task) in priced.sheet.tasks().iter().enumerate() {
            if task.struck {
                table.rows[number] = ask_minutes(priced.tariff, task);
            }
        }
        TimedSheet::of_standing(priced, table)
    }
}
