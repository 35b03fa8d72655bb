// The greatest times quoted, and their sum over the stages.
ghost use Rattle.std.specs.Prelude.{◌≡◌, ◌≤◌};
ghost use Rattle.sheets.specs.Book.{book};
ghost use Rattle.model.specs.Assignment.{stage_tasks, standing};
ghost use Rattle.model.specs.Allowance.{greatest_time_below, greatest_time};
ghost use Rattle.model.specs.Cell.{span};
ghost use Rattle.cells.specs.Minutes.{task_at};

use crate::TimedSheet;
use costs::Cost;
use tariffs::Tariff;

// The greatest time quoted to the task of this number, 0 without any.
fn greatest_quote<T: Tariff>(timed: &TimedSheet<T>, number: usize) -> u32
    ensures { result ≡ greatest_time_below (T.Tariff.meaning timed.now.priced.tariff.now) (task_at (book timed.now.priced.sheet.now).tasks number) (T.Tariff.meaning timed.now.priced.tariff.now).count }
{
    let mut greatest: u32 = 0;
    for machine in 0..timed.priced.tariff.machines() {
        greatest = greatest.max(timed.minutes(number, machine));
    }
    greatest
}

// The greatest time quoted to a standing task of a stage, 0 without any.
pub(crate) fn greatest_time<T: Tariff>(timed: &TimedSheet<T>, stage: usize) -> u32
    ensures { result ≡ greatest_time (T.Tariff.meaning timed.now.priced.tariff.now) (stage_tasks (book timed.now.priced.sheet.now).tasks stage) }
{
    let mut greatest: u32 = 0;
    for (number, task) in timed.priced.sheet.tasks().iter().enumerate() {
        if task.stands_in(stage) {
            greatest = greatest.max(greatest_quote(timed, number));
        }
    }
    greatest
}

// The sum over stages of the greatest time quoted to a standing task there. No assignment is longer.
pub fn span<T: Tariff>(timed: &TimedSheet<T>) -> u32
    ensures value { result ≡ span (T.Tariff.meaning timed.now.priced.tariff.now) (standing (book timed.now.priced.sheet.now)) }
    ensures few { result ≤ 23040 }
{
    let mut span = 0;
    for stage in 0..timed.priced.sheet.stage_count() {
        span += greatest_time(timed, stage);
    }
    span
}
