// The standing tasks of a stage, and what they cost.
ghost use Rattle.std.specs.Prelude.{◌≡◌};
ghost use Rattle.sheets.specs.Book.{book};
ghost use Rattle.model.specs.Assignment.{stage_tasks};
ghost use Rattle.model.specs.Allowance.{cost_within};

use crate::{TimedSheet, cheapest};
use costs::Cost;
use tariffs::Tariff;

// What a stage costs under an allowance: the join of its standing tasks' cheapest quotes within it; none if a task has
// none.
pub fn stage_cost<T: Tariff>(timed: &TimedSheet<T>, stage: usize, allowance: u32) -> Option<T::Cost>
    ensures { result ≡ cost_within T.Cost.Cost.kind (T.Tariff.meaning timed.now.priced.tariff.now) (stage_tasks (book timed.now.priced.sheet.now).tasks stage) allowance }
{
    let mut sum = T::Cost::neutral();
    for (number, task) in timed.priced.sheet.tasks().iter().enumerate() {
        if task.stands_in(stage) {
            let choice = cheapest(timed, number, allowance)?;
            sum = sum.join(choice.cost);
        }
    }
    Some(sum)
}
