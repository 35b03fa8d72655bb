// The first allowance list of a length and cost, and the plan that goes by it.
ghost use Rattle.std.specs.Prelude.{◌≡◌, ℕ, ◌<◌, ◌≤◌, false, ◌&&◌, ◌++◌, length, take, drop, if◌then◌else◌, nat_lt, slice_index_or};
ghost use Rattle.sheets.specs.Book.{book};
ghost use Rattle.model.specs.Assignment.{stage_tasks};
ghost use Rattle.model.specs.Allowance.{cheapest, cost_within, cost_until, is_time};
ghost use Rattle.model.specs.Plan.{struck_byte, machine_or, completes, or_neutral, allowances_for, plan};
ghost use Rattle.cells.specs.Minutes.{task_at};
ghost use Rattle.planner.specs.Row.{HoldsLeastCosts};

use cells::{CellRows, TIMES, TimedSheet, cheapest, quoted_times, stage_cost};
use costs::Cost;
use model::Point;
use sheets::{MAX_STAGES, Task};
use tariffs::Tariff;

// The byte of a struck task.
const STRUCK_BYTE: u8 = 255;

// Whether a stage's cost, joined to what was spent before it and to the least cost behind it, still reaches the limit.
fn completes<C: Cost>(spent: C, cost: Option<C>, rest: Option<C>, limit: C) -> bool
    ensures { result ≡ completes C.Cost.kind spent cost rest limit }
{
    match (cost, rest) {
        (Some(cost), Some(rest)) => spent.join(cost.join(rest)).at_most(limit),
        _ => false,
    }
}

// A cost, or the neutral one.
fn or_neutral<C: Cost>(cost: Option<C>) -> C
    ensures { result ≡ or_neutral C.Cost.kind cost }
{
    cost.unwrap_or(C::neutral())
}

// Whether a time is marked; none past the marks is.
fn is_marked(times: &[bool; TIMES], minutes: u32) -> bool
    ensures { result ≡ (nat_lt minutes 1441 && slice_index_or times.now minutes false) }
{
    times.get(minutes as usize).is_some_and(|marked| *marked)
}

// What a stage costs within an allowance, from what it costs within one minute less: that changes only at quoted times.
fn next_cost<T: Tariff>(
    timed: &TimedSheet<T>,
    stage: usize,
    times: &[bool; TIMES],
    allowance: u32,
    before: Option<T::Cost>,
) -> Option<T::Cost>
    requires marked { (m : ℕ) → m < 1441 → slice_index_or times.now m false ≡ is_time (T.Tariff.meaning timed.now.priced.tariff.now) (stage_tasks (book timed.now.priced.sheet.now).tasks stage) m }
    requires until { before ≡ cost_until T.Cost.Cost.kind (T.Tariff.meaning timed.now.priced.tariff.now) (stage_tasks (book timed.now.priced.sheet.now).tasks stage) allowance }
    ensures { result ≡ cost_within T.Cost.Cost.kind (T.Tariff.meaning timed.now.priced.tariff.now) (stage_tasks (book timed.now.priced.sheet.now).tasks stage) allowance }
{
    if is_marked(times, allowance) {
        return stage_cost(timed, stage, allowance);
    }
    before
}

// Writes the first allowance list of the point: for each stage the least allowance with which the stages behind it still
// reach the cost. The last that is tried is all the minutes left.
fn first_list<T: Tariff>(
    timed: &TimedSheet<T>,
    rows: &CellRows<T::Cost>,
    point: &Point<T::Cost>,
    list: &mut [u32],
)
    requires filled { HoldsLeastCosts T.Cost.Cost.kind (T.Tariff.meaning timed.now.priced.tariff.now) (book timed.now.priced.sheet.now) rows.now.cells.now rows.now.layout }
    requires within { point.now.length < rows.now.layout.width }
    requires room { (book timed.now.priced.sheet.now).stages ≤ length list.old }
    ensures { take (book timed.now.priced.sheet.now).stages list.new ≡ allowances_for T.Cost.Cost.kind (T.Tariff.meaning timed.now.priced.tariff.now) (book timed.now.priced.sheet.now) point.now }
{
    let mut left = point.length;
    let mut spent = T::Cost::neutral();
    'stages: for stage in 0..timed.priced.sheet.stage_count() {
        let times = quoted_times(timed, stage);
        let mut cost = None;
        for allowance in 0..=left {
            cost = next_cost(timed, stage, &times, allowance, cost);
            let rest = rows.cost_at(stage as u32 + 1, left - allowance);
            if completes(spent, cost, rest, point.cost) || allowance == left {
                list[stage] = allowance;
                spent = spent.join(or_neutral(cost));
                left -= allowance;
                continue 'stages;
            }
        }
    }
}

// The byte of a task: its cheapest machine within the allowance, or 255 if it is struck.
fn byte_under<T: Tariff>(timed: &TimedSheet<T>, number: usize, task: &Task, allowance: u32) -> u8
    requires { task.now ≡ task_at (book timed.now.priced.sheet.now).tasks number }
    ensures { result ≡ (if task.now.struck then struck_byte else machine_or struck_byte (cheapest T.Cost.Cost.kind (T.Tariff.meaning timed.now.priced.tariff.now) task.now allowance)) }
{
    if task.struck {
        return STRUCK_BYTE;
    }
    cheapest(timed, number, allowance).map_or(STRUCK_BYTE, |choice| choice.machine as u8)
}

// Writes the plan of the point, a byte for each task number, to memory that has room for it.
pub(crate) fn write_plan<T: Tariff>(
    timed: &TimedSheet<T>,
    rows: &CellRows<T::Cost>,
    point: &Point<T::Cost>,
    bytes: &mut [u8],
)
    requires filled { HoldsLeastCosts T.Cost.Cost.kind (T.Tariff.meaning timed.now.priced.tariff.now) (book timed.now.priced.sheet.now) rows.now.cells.now rows.now.layout }
    requires within { point.now.length < rows.now.layout.width }
    requires room { length (book timed.now.priced.sheet.now).tasks ≤ length bytes.old }
    ensures { bytes.new ≡ plan T.Cost.Cost.kind (T.Tariff.meaning timed.now.priced.tariff.now) (book timed.now.priced.sheet.now) point.now ++ drop (length (book timed.now.priced.sheet.now).tasks) bytes.old }
{
    let mut list = [0; MAX_STAGES];
    first_list(timed, rows, point, &mut list);
    for (number, task) in timed.priced.sheet.tasks().iter().enumerate() {
        bytes[number] = byte_under(timed, number, task, list[task.stage]);
    }
}
