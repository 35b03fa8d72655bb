// The times quoted in a stage.
ghost use Rattle.std.specs.Prelude.{◌≡◌, ℕ, ◌<◌, false, ◌||◌, slice_index_or};
ghost use Rattle.std.specs.List.{range_with_len};
ghost use Rattle.sheets.specs.Book.{book};
ghost use Rattle.model.specs.Lists.{any};
ghost use Rattle.model.specs.Assignment.{stage_tasks};
ghost use Rattle.model.specs.Allowance.{takes, is_time};
ghost use Rattle.cells.specs.Minutes.{task_at};

use crate::TimedSheet;
use costs::Cost;
use tariffs::{MAX_MINUTES, Tariff};

// How many different times there are, from 0 minutes to the longest that a quote takes.
pub const TIMES: usize = MAX_MINUTES as usize + 1;

// Marks each time that a machine quotes for the task of this number.
fn mark<T: Tariff>(timed: &TimedSheet<T>, number: usize, times: &mut [bool; TIMES])
    ensures { (m : ℕ) → m < 1441 → slice_index_or times.new m false ≡ (slice_index_or times.old m false || any (takes (T.Tariff.meaning timed.now.priced.tariff.now) (task_at (book timed.now.priced.sheet.now).tasks number) m) (range_with_len 0 (T.Tariff.meaning timed.now.priced.tariff.now).count)) }
{
    for machine in 0..timed.priced.tariff.machines() {
        let minutes = timed.minutes(number, machine);
        if minutes > 0 {
            times[minutes as usize] = true;
        }
    }
}

// The times that machines quote for the standing tasks of a stage, by minutes; for a stage without standing tasks, 0.
pub fn quoted_times<T: Tariff>(timed: &TimedSheet<T>, stage: usize) -> [bool; TIMES]
    ensures { (m : ℕ) → m < 1441 → slice_index_or result m false ≡ is_time (T.Tariff.meaning timed.now.priced.tariff.now) (stage_tasks (book timed.now.priced.sheet.now).tasks stage) m }
{
    let tasks = timed.priced.sheet.tasks();
    let mut times = [false; TIMES];
    times[0] = !tasks.iter().any(|task| task.stands_in(stage));
    for (number, task) in tasks.iter().enumerate() {
        if task.stands_in(stage) {
            mark(timed, number, &mut times);
        }
    }
    times
}
