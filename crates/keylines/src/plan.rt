// The answer to a limit: the pair, then the machine of each standing task.
ghost use Rattle.std.specs.Prelude.{◌≡◌, ◌≤◌, length};
ghost use Rattle.sheets.specs.Book.{book};
ghost use Rattle.texts.specs.Write.{Writes};
ghost use Rattle.keylines.specs.Plan.{assigned_from, assigned_tasks, result_text};

use crate::lines::{lines_room, put_lines};
use crate::{Assigned, Line};
use costs::WrittenCost;
use model::Point;
use sheets::{MAX_TASKS, Sheet, Task};
use texts::TooShort;

// Lists the standing tasks, by number, with the machines that a plan gives them.
fn list_machines<'a>(tasks: &[Task], plan: &[u8], list: &'a mut [Assigned]) -> &'a [Assigned]
    requires { length tasks.now ≤ length list.old }
    ensures { result.now ≡ assigned_from 0 tasks.now plan.now }
{
    let mut count = 0;
    for (number, (task, machine)) in tasks.iter().zip(plan).enumerate() {
        if !task.struck {
            list[count] = Assigned {
                task: number,
                machine: *machine,
            };
            count += 1;
        }
    }
    &list[..count]
}

// Writes the lines of a pair and of the machines of its plan, unless they are too long for the memory.
fn write_pair_and_machines<C: WrittenCost>(
    point: &Point<C>,
    machines: &[Assigned],
    memory: &mut [u8],
) -> Result<usize, TooShort>
    ensures { Writes (result_text C.WrittenCost.text point.now machines.now) memory.old memory.new result }
{
    let left = point.room_behind(memory.len()).ok_or(TooShort)?;
    lines_room(machines, left).ok_or(TooShort)?;
    let end = point.write(memory)?;
    put_lines(machines, memory, end)
}

// Writes the line of a pair and then, for each standing task, the line of its machine in the plan, and returns how many
// bytes that took. A task whose number is past the plan's end has no line.
pub fn write_result<C: WrittenCost>(
    point: &Point<C>,
    sheet: &Sheet,
    plan: &[u8],
    memory: &mut [u8],
) -> Result<usize, TooShort>
    ensures { Writes (result_text C.WrittenCost.text point.now (assigned_tasks (book sheet.now) plan.now)) memory.old memory.new result }
{
    let mut list = [Assigned::default(); MAX_TASKS];
    let machines = list_machines(sheet.tasks(), plan, &mut list);
    write_pair_and_machines(point, machines, memory)
}
