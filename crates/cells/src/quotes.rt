// The quote of a task.
ghost use Rattle.std.specs.Prelude.{◌≡◌};
ghost use Rattle.model.specs.Assignment.{quote_of};

use costs::Cost;
use sheets::Task;
use tariffs::{Quote, Tariff};

// What a machine quotes for a task, if anything. The planner asks tariffs here and nowhere else.
pub fn quote_of<T: Tariff>(tariff: &T, task: &Task, machine: usize) -> Option<Quote<T::Cost>>
    ensures { result ≡ quote_of (T.Tariff.meaning tariff.now) task.now machine }
{
    tariff.quote(machine, task.work)
}
