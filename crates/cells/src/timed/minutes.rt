// The minutes that machines quote for tasks.
ghost use Rattle.std.specs.Prelude.{◌≡◌, ℕ, drop, length, slice_index_or};
ghost use Rattle.sheets.specs.Book.{book};
ghost use Rattle.model.specs.Assignment.{quote_of, minutes_of};
ghost use Rattle.cells.specs.Minutes.{no_minutes, task_at, HoldsStandingMinutes, KeepsStruckRows};

use crate::{MinutesTable, TimedSheet, quote_of};
use costs::Cost;
use model::PricedSheet;
use sheets::{MAX_TASKS, Task};
use tariffs::{MAX_MACHINES, Quote, Tariff};

// The minutes of a quote, 0 without one.
fn minutes_of<C: Cost>(quote: Option<Quote<C>>) -> u32
    ensures { result ≡ minutes_of quote }
{
    quote.map_or(0, |quote| quote.minutes)
}

// The minutes that each machine quotes for a task, 0 without a quote.
pub(crate) fn ask_minutes<T: Tariff>(tariff: &T, task: &Task) -> [u16; MAX_MACHINES]
    ensures { (machine : ℕ) → slice_index_or result machine 0 ≡ minutes_of (quote_of (T.Tariff.meaning tariff.now) task.now machine) }
{
    let mut minutes = [0; MAX_MACHINES];
    for machine in 0..tariff.machines() {
        minutes[machine] = minutes_of(quote_of(tariff, task, machine)) as u16;
    }
    minutes
}

impl MinutesTable {
    // A table in which no minutes stand yet.
    pub fn new() -> MinutesTable
        ensures { result.rows ≡ no_minutes }
    {
        MinutesTable {
            rows: [[0; MAX_MACHINES]; MAX_TASKS],
        }
    }
}

impl<'a, 'b, T: Tariff> TimedSheet<'a, 'b, T> {
    // Asks the tariff for the minutes of the standing tasks, and keeps them in the table while it is lent. The rows of struck
    // tasks and those past the tasks stay as they were.
    pub fn of_standing(
        priced: &PricedSheet<'a, T>,
        table: &'b mut MinutesTable,
    ) -> TimedSheet<'a, 'b, T>
        ensures priced { result.priced ≡ priced.now }
        ensures minutes { let tasks = (book priced.now.sheet.now).tasks in
            HoldsStandingMinutes (T.Tariff.meaning priced.now.tariff.now)
            tasks result.table.now.rows }
        ensures struck { KeepsStruckRows (book priced.now.sheet.now).tasks
            table.old.rows result.table.now.rows }
        ensures behind { let count = length (book priced.now.sheet.now).tasks in
            drop count result.table.now.rows ≡ drop count table.old.rows }
    {
        for (number, task) in priced.sheet.tasks().iter().enumerate() {
            if !task.struck {
                table.rows[number] = ask_minutes(priced.tariff, task);
            }
        }
        TimedSheet {
            priced: *priced,
            table,
        }
    }

    // The minutes that a machine quotes for the task of this number, 0 without a quote. For a struck task, which no question
    // asks for, the tariff is asked anew.
    pub fn minutes(&self, number: usize, machine: usize) -> u32
        ensures { result ≡ minutes_of (quote_of (T.Tariff.meaning self.now.priced.tariff.now) (task_at (book self.now.priced.sheet.now).tasks number) machine) }
    {
        match self.priced.sheet.tasks().get(number) {
            None => 0,
            Some(task) if task.struck => minutes_of(quote_of(self.priced.tariff, task, machine)),
            Some(_) => self.table.rows[number]
                .get(machine)
                .map_or(0, |minutes| u32::from(*minutes)),
        }
    }
}
