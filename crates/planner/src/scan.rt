// The first row of cells, minute by minute.
ghost use Rattle.std.specs.Prelude.{◌≡◌, ◌≤◌, ◌++◌, length, drop};
ghost use Rattle.std.specs.Option.{option_to_list};
ghost use Rattle.model.specs.Scan.{affordable, point_at, drops_below};
ghost use Rattle.planner.specs.Row.{first_row};

use cells::CellRows;
use costs::Cost;
use model::Point;

// Whether there is a cost and it is at most the limit.
pub(crate) fn affordable<C: Cost>(cost: Option<C>, limit: C) -> bool
    ensures { result ≡ affordable C.Cost.kind cost limit }
{
    cost.is_some_and(|cost| cost.at_most(limit))
}

// The point at a minute, if the costs get cheaper there.
fn point_at<C: Cost>(rows: &CellRows<C>, minute: u32) -> Option<Point<C>>
    ensures { option_to_list result ≡ point_at C.Cost.kind (first_row C.Cost.kind rows.now) minute (first_row C.Cost.kind rows.now minute) }
{
    let cost = rows.cost_at(0, minute)?;
    if minute > 0 && affordable(rows.cost_at(0, minute - 1), cost) {
        return None;
    }
    Some(Point {
        length: minute,
        cost,
    })
}

// How many points there are.
pub(crate) fn count_points<C: Cost>(rows: &CellRows<C>) -> usize
    ensures { result ≡ length (drops_below C.Cost.kind (first_row C.Cost.kind rows.now) rows.now.layout.width) }
{
    (0..rows.layout.width)
        .filter_map(|minute| point_at(rows, minute))
        .count()
}

// Writes the points, by rising length, to memory that has room for them.
pub(crate) fn write_points<C: Cost>(rows: &CellRows<C>, points: &mut [Point<C>])
    requires { length (drops_below C.Cost.kind (first_row C.Cost.kind rows.now) rows.now.layout.width) ≤ length points.old }
    ensures { points.new ≡ drops_below C.Cost.kind (first_row C.Cost.kind rows.now) rows.now.layout.width ++ drop (length (drops_below C.Cost.kind (first_row C.Cost.kind rows.now) rows.now.layout.width)) points.old }
{
    let mut count = 0;
    for minute in 0..rows.layout.width {
        if let Some(point) = point_at(rows, minute) {
            points[count] = point;
            count += 1;
        }
    }
}
