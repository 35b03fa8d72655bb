// The questions `budget` and `deadline`.
ghost use Rattle.std.specs.Prelude.{◌≡◌, ◌<◌, IfSome};
ghost use Rattle.refusals.specs.Answer.{answer_of};
ghost use Rattle.sheets.specs.Book.{book};
ghost use Rattle.sheets.specs.History.{KnownFurther};
ghost use Rattle.model.specs.Limit.{unquoted, lowest_unquoted};
ghost use Rattle.model.specs.Question.{limit_answer, limit_cells, limit_bytes, budget_answer, budget_bytes, deadline_answer, deadline_bytes};
ghost use Rattle.model.specs.Scan.{first_below};
ghost use Rattle.cells.specs.Minutes.{task_at};
ghost use Rattle.planner.specs.Equations.{BudgetEquation, BudgetEquationAtOnce, DeadlineEquation};
ghost use Rattle.planner.specs.Limit.{result_of, limit_check, row_within};
ghost use Rattle.planner.specs.OffTheFront.{BudgetOffTheFront, DeadlineOffTheFront};
ghost use Rattle.planner.specs.Refusal.{question_told};
ghost use Rattle.planner.specs.Row.{first_row};
ghost use Rattle.planner.specs.Words.{BudgetTells, DeadlineTells};

use crate::QuestionRefusal;
use crate::limit::Limit;
use crate::plan::write_plan;
use cells::{CellRows, MinutesTable, TimedSheet, cheapest, check_cells, fill};
use costs::Cost;
use model::{Cell, Point, PricedSheet};
use sheets::{Call, Task};
use tariffs::{MAX_MINUTES, Tariff};

// Whether the task of this number stands and no machine quotes it.
fn is_unquoted<T: Tariff>(timed: &TimedSheet<T>, number: usize, task: &Task) -> bool
    requires { task.now ≡ task_at (book timed.now.priced.sheet.now).tasks number }
    ensures { result ≡ unquoted (T.Tariff.meaning timed.now.priced.tariff.now) task.now }
{
    !task.struck && cheapest(timed, number, MAX_MINUTES).is_none()
}

// The lowest standing task that no machine quotes.
fn lowest_unquoted<T: Tariff>(timed: &TimedSheet<T>) -> Option<usize>
    ensures { result ≡ lowest_unquoted (T.Tariff.meaning timed.now.priced.tariff.now) (book timed.now.priced.sheet.now) }
{
    for (number, task) in timed.priced.sheet.tasks().iter().enumerate() {
        if is_unquoted(timed, number, task) {
            return Some(number);
        }
    }
    None
}

// Refuses what is refused before any cell is written.
fn check<T: Tariff>(
    timed: &TimedSheet<T>,
    cells: &[Cell<T::Cost>],
    bytes: usize,
) -> Result<(), QuestionRefusal>
    ensures { answer_of question_told result ≡ limit_check (T.Tariff.meaning timed.now.priced.tariff.now) (book timed.now.priced.sheet.now) cells.now bytes }
{
    check_cells(timed, cells)?;
    if bytes < timed.priced.sheet.task_count() {
        return Err(QuestionRefusal::TooShort);
    }
    match lowest_unquoted(timed) {
        Some(task) => Err(QuestionRefusal::Unquoted(task)),
        None => Ok(()),
    }
}

// The first minute before the end whose cost is at most the limit, with that cost.
fn first_within<C: Cost>(rows: &CellRows<C>, end: u32, limit: C) -> Option<Point<C>>
    ensures value { result ≡ first_below C.Cost.kind (first_row C.Cost.kind rows.now) limit end }
    ensures below { IfSome result (λ p. p.length < end) }
{
    for length in 0..end {
        if let Some(cost) = rows.cost_at(0, length)
            && cost.at_most(limit)
        {
            return Some(Point { length, cost });
        }
    }
    None
}

// The best pair within the limit, read off the first row.
fn find<C: Cost>(rows: &CellRows<C>, limit: Limit<C>) -> Option<Point<C>>
    requires { 0 < rows.now.layout.width }
    ensures value { result ≡ row_within C.Cost.kind (first_row C.Cost.kind rows.now) rows.now.layout.width limit }
    ensures below { IfSome result (λ p. p.length < rows.now.layout.width) }
{
    let width = rows.layout.width;
    match limit {
        Limit::Budget(cost) => first_within(rows, width, cost),
        Limit::Deadline(minutes) => {
            let last = minutes.min(width - 1);
            first_within(rows, last + 1, rows.cost_at(0, last)?)
        }
    }
}

fn answer_limit<T: Tariff>(
    timed: &TimedSheet<T>,
    limit: Limit<T::Cost>,
    cells: &mut [Cell<T::Cost>],
    bytes: &mut [u8],
) -> Result<Point<T::Cost>, QuestionRefusal>
    ensures answer { answer_of question_told result ≡ limit_answer (T.Tariff.meaning timed.now.priced.tariff.now) (book timed.now.priced.sheet.now) cells.old bytes.old (result_of T.Cost.Cost.kind (T.Tariff.meaning timed.now.priced.tariff.now) (book timed.now.priced.sheet.now) limit) }
    ensures cells { cells.new ≡ limit_cells T.Cost.Cost.kind (T.Tariff.meaning timed.now.priced.tariff.now) (book timed.now.priced.sheet.now) cells.old bytes.old }
    ensures bytes { bytes.new ≡ limit_bytes T.Cost.Cost.kind (T.Tariff.meaning timed.now.priced.tariff.now) (book timed.now.priced.sheet.now) (limit_answer (T.Tariff.meaning timed.now.priced.tariff.now) (book timed.now.priced.sheet.now) cells.old bytes.old (result_of T.Cost.Cost.kind (T.Tariff.meaning timed.now.priced.tariff.now) (book timed.now.priced.sheet.now) limit)) bytes.old }
{
    check(timed, cells, bytes.len())?;
    let layout = fill(timed, cells)?;
    let rows = CellRows { cells, layout };
    let point = find(&rows, limit).ok_or(QuestionRefusal::NoneWithin)?;
    write_plan(timed, &rows, &point, bytes);
    Ok(point)
}

// The least length of an assignment that costs at most the limit, and the least cost at that length; the plan is
// written to the bytes.
pub fn budget<T: Tariff>(
    priced: &PricedSheet<T>,
    limit: T::Cost,
    cells: &mut [Cell<T::Cost>],
    bytes: &mut [u8],
) -> Result<Point<T::Cost>, QuestionRefusal>
    ensures answer { answer_of question_told result ≡ budget_answer T.Cost.Cost.kind (T.Tariff.meaning priced.now.tariff.now) (book priced.now.sheet.now) limit cells.old bytes.old }
    ensures cells { cells.new ≡ limit_cells T.Cost.Cost.kind (T.Tariff.meaning priced.now.tariff.now) (book priced.now.sheet.now) cells.old bytes.old }
    ensures bytes { bytes.new ≡ budget_bytes T.Cost.Cost.kind (T.Tariff.meaning priced.now.tariff.now) (book priced.now.sheet.now) limit cells.old bytes.old }
    ensures words { BudgetTells T.Cost.Cost.kind (T.Tariff.meaning priced.now.tariff.now) (book priced.now.sheet.now) limit bytes.new result }
    ensures off_the_front { let meaning = T.Tariff.meaning priced.now.tariff.now in
        BudgetOffTheFront T.Cost.Cost.kind meaning (book priced.now.sheet.now) limit result }
    ensures equation { let K = T.Cost.Cost.kind in
        let M = T.Tariff.meaning priced.now.tariff.now in
        BudgetEquation K M (book priced.now.sheet.now) limit result }
    ensures at_once { let K = T.Cost.Cost.kind in
        let M = T.Tariff.meaning priced.now.tariff.now in
        BudgetEquationAtOnce K M (book priced.now.sheet.now) limit result }
    ensures known { KnownFurther priced.now.sheet.now Call.Budget priced.now.sheet.now }
{
    let mut table = MinutesTable::new();
    let timed = TimedSheet::of_standing(priced, &mut table);
    answer_limit(&timed, Limit::Budget(limit), cells, bytes)
}

// The least cost of an assignment no longer than the limit in minutes, and the least length at that cost; the plan is
// written to the bytes.
pub fn deadline<T: Tariff>(
    priced: &PricedSheet<T>,
    limit: u32,
    cells: &mut [Cell<T::Cost>],
    bytes: &mut [u8],
) -> Result<Point<T::Cost>, QuestionRefusal>
    ensures answer { answer_of question_told result ≡ deadline_answer T.Cost.Cost.kind (T.Tariff.meaning priced.now.tariff.now) (book priced.now.sheet.now) limit cells.old bytes.old }
    ensures cells { cells.new ≡ limit_cells T.Cost.Cost.kind (T.Tariff.meaning priced.now.tariff.now) (book priced.now.sheet.now) cells.old bytes.old }
    ensures bytes { bytes.new ≡ deadline_bytes T.Cost.Cost.kind (T.Tariff.meaning priced.now.tariff.now) (book priced.now.sheet.now) limit cells.old bytes.old }
    ensures words { DeadlineTells T.Cost.Cost.kind (T.Tariff.meaning priced.now.tariff.now) (book priced.now.sheet.now) limit bytes.new result }
    ensures off_the_front { let meaning = T.Tariff.meaning priced.now.tariff.now in
        DeadlineOffTheFront T.Cost.Cost.kind meaning (book priced.now.sheet.now) limit result }
    ensures equation { let K = T.Cost.Cost.kind in
        let M = T.Tariff.meaning priced.now.tariff.now in
        DeadlineEquation K M (book priced.now.sheet.now) limit result }
    ensures known { KnownFurther priced.now.sheet.now Call.Deadline priced.now.sheet.now }
{
    let mut table = MinutesTable::new();
    let timed = TimedSheet::of_standing(priced, &mut table);
    answer_limit(&timed, Limit::Deadline(limit), cells, bytes)
}
