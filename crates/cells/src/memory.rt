// Rows of cells in memory.
ghost use Rattle.std.specs.Prelude.{◌≡◌, ◌<◌, ◌≤◌, length, Some, None, slice_index_or, slice_set};
ghost use Rattle.model.specs.Cell.{cell_of, cost_in};
ghost use Rattle.cells.specs.Layout.{size};
ghost use Rattle.cells.specs.Memory.{cell_at, up_to, RowWritten, is_lowered, lowered, lowered_row};

use crate::Layout;
use costs::Cost;
use model::Cell;

// Rows of cells that are read.
#[derive_where(Clone, Copy)]
pub struct CellRows<'a, C> {
    pub cells: &'a [Cell<C>],
    pub layout: Layout,
}

impl<'a, C: Cost> CellRows<'a, C> {
    // The cost in the cell at the place of these minutes in the row of a stage, none if it was not reached or is past the
    // memory. Minutes past the row's end are those of the next row.
    pub fn cost_at(&self, stage: u32, minutes: u32) -> Option<C>
        ensures { result ≡ cost_in (cell_at C.Cost.kind self.now.layout self.now.cells.now stage minutes) }
    {
        self.cells.get(self.layout.place(stage, minutes))?.least()
    }
}

// Writes a cell along the row of a stage, from a minute on.
pub(crate) fn write_row<C: Cost>(
    cells: &mut [Cell<C>],
    layout: Layout,
    stage: u32,
    start: u32,
    cell: Cell<C>,
)
    requires room { size layout ≤ length cells.old }
    requires known { stage ≤ layout.stages }
    ensures { RowWritten C.Cost.kind layout stage (up_to start (cell_at C.Cost.kind layout cells.old stage) (λ _. cell)) cells.old cells.new }
{
    for minutes in start..layout.width {
        cells[layout.place(stage, minutes)] = cell;
    }
}

// Whether a cell is lowered by an offer: it has no cost yet, or a dearer one.
fn is_lowered<C: Cost>(cell: &Cell<C>, offer: C) -> bool
    ensures { result ≡ is_lowered C.Cost.kind cell.now offer }
{
    cell.least().is_none_or(|least| !least.at_most(offer))
}

// Puts a cost into a cell. Each field by itself, so that the bytes between them are not written.
fn put<C: Cost>(cell: &mut Cell<C>, cost: C)
    ensures { cell.new ≡ cell_of C.Cost.kind (Some cost) }
{
    cell.reached = true;
    cell.cost = cost;
}

// Lowers the cell at a place to an offer, where that is less.
fn lower<C: Cost>(cells: &mut [Cell<C>], place: usize, offer: C)
    requires { place < length cells.old }
    ensures { cells.new ≡ slice_set cells.old place (lowered C.Cost.kind (slice_index_or cells.old place (cell_of C.Cost.kind None)) (Some offer)) }
{
    if is_lowered(&cells[place], offer) {
        put(&mut cells[place], offer);
    }
}

// Lowers each cell of a stage's row, from the allowance to before the end, to what its cost within that and the cell behind
// it come to, where that is less.
pub(crate) fn lower_row<C: Cost>(
    cells: &mut [Cell<C>],
    layout: Layout,
    stage: u32,
    allowance: u32,
    cost: C,
    end: u32,
)
    requires room { size layout ≤ length cells.old }
    requires known { stage < layout.stages }
    requires before { allowance ≤ end }
    requires short { end ≤ layout.width }
    ensures { RowWritten C.Cost.kind layout stage (up_to end (lowered_row C.Cost.kind layout cells.old stage allowance cost) (cell_at C.Cost.kind layout cells.old stage)) cells.old cells.new }
{
    for minutes in allowance..end {
        let behind = layout.place(stage + 1, minutes - allowance);
        if let Some(rest) = cells[behind].least() {
            lower(cells, layout.place(stage, minutes), cost.join(rest));
        }
    }
}
