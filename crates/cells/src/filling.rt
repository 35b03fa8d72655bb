// The filling of cells.
ghost use Rattle.std.specs.Prelude.{◌≡◌, ◌+◌, ◌<◌, ◌≤◌, length, min, IfOk, Ok};
ghost use Rattle.refusals.specs.Answer.{answer_of, refused_if};
ghost use Rattle.sheets.specs.Book.{book};
ghost use Rattle.model.specs.Assignment.{stage_tasks};
ghost use Rattle.model.specs.Question.{few_cells, front_cells};
ghost use Rattle.cells.specs.TooFew.{too_few_told};
ghost use Rattle.cells.specs.Layout.{layout_of, size};
ghost use Rattle.cells.specs.Memory.{RowWritten, Falling, if_less, row_costs, stage_row};

use crate::memory::{lower_row, write_row};
use crate::spans::greatest_time;
use crate::times::{TIMES, quoted_times};
use crate::{Layout, TimedSheet, TooFewCells, stage_cost};
use costs::Cost;
use model::Cell;
use tariffs::Tariff;

// The layout of the cells that a sheet needs under a tariff. Refused where there are fewer.
pub fn check_cells<T: Tariff>(
    timed: &TimedSheet<T>,
    cells: &[Cell<T::Cost>],
) -> Result<Layout, TooFewCells>
    ensures answer { answer_of too_few_told result ≡ refused_if (few_cells (T.Tariff.meaning timed.now.priced.tariff.now) (book timed.now.priced.sheet.now) cells.now) 7 (Ok (layout_of (T.Tariff.meaning timed.now.priced.tariff.now) (book timed.now.priced.sheet.now))) }
    ensures room { IfOk result (λ layout. size layout ≤ length cells.now) }
{
    let layout = Layout::of(timed);
    if cells.len() < layout.size() {
        return Err(TooFewCells);
    }
    Ok(layout)
}

// A cost, where it is less than the one before it.
fn if_less<C: Cost>(before: Option<C>, cost: Option<C>) -> Option<C>
    ensures { result ≡ if_less C.Cost.kind before cost }
{
    match (before, cost) {
        (Some(before), Some(cost)) => (!before.at_most(cost)).then_some(cost),
        (_, cost) => cost,
    }
}

// Fills the row of a stage; the row behind it stands already. No assignment of the stages from this one on is longer than
// `longest`, so later cells are as the one there. The stage's cost within a quoted time is reckoned once; only where it is
// less than within the last one before does it offer anything, since fewer minutes for the stages behind are never cheaper.
fn fill_stage<T: Tariff>(
    timed: &TimedSheet<T>,
    cells: &mut [Cell<T::Cost>],
    layout: Layout,
    stage: u32,
    longest: u32,
)
    requires room { size layout ≤ length cells.old }
    requires known { stage < layout.stages }
    requires short { longest < layout.width }
    requires falling { Falling T.Cost.Cost.kind layout.width (row_costs T.Cost.Cost.kind layout cells.old (stage + 1)) }
    ensures { RowWritten T.Cost.Cost.kind layout stage (λ t. stage_row T.Cost.Cost.kind (T.Tariff.meaning timed.now.priced.tariff.now) (stage_tasks (book timed.now.priced.sheet.now).tasks stage) (row_costs T.Cost.Cost.kind layout cells.old (stage + 1)) 1441 (min t longest)) cells.old cells.new }
{
    let times = quoted_times(timed, stage as usize);
    let end = longest + 1;
    write_row(cells, layout, stage, 0, Cell::of(None));
    let mut before = None;
    for (allowance, quoted) in times[..TIMES.min(end as usize)].iter().enumerate() {
        if *quoted {
            let cost = stage_cost(timed, stage as usize, allowance as u32);
            if let Some(less) = if_less(before, cost) {
                lower_row(cells, layout, stage, allowance as u32, less, end);
            }
            before = cost;
        }
    }
    let last = cells[layout.place(stage, longest)];
    write_row(cells, layout, stage, end, last);
}

// Fills the cells for a sheet under a tariff, from the row behind the last stage to the first, and returns their layout.
pub fn fill<T: Tariff>(
    timed: &TimedSheet<T>,
    cells: &mut [Cell<T::Cost>],
) -> Result<Layout, TooFewCells>
    ensures answer { answer_of too_few_told result ≡ refused_if (few_cells (T.Tariff.meaning timed.now.priced.tariff.now) (book timed.now.priced.sheet.now) cells.old) 7 (Ok (layout_of (T.Tariff.meaning timed.now.priced.tariff.now) (book timed.now.priced.sheet.now))) }
    ensures after { cells.new ≡ front_cells T.Cost.Cost.kind (T.Tariff.meaning timed.now.priced.tariff.now) (book timed.now.priced.sheet.now) cells.old }
{
    let layout = check_cells(timed, cells)?;
    let nothing_left = Cell::of(Some(T::Cost::neutral()));
    write_row(cells, layout, layout.stages, 0, nothing_left);
    let mut longest = 0;
    for stage in (0..layout.stages).rev() {
        longest += greatest_time(timed, stage as usize);
        fill_stage(timed, cells, layout, stage, longest);
    }
    Ok(layout)
}
