// The memory that a key has for its questions.
use costs::Cents;
use model::Point;

// How many cells a question may use, and how many points a front may have.
pub(crate) const CELLS: usize = 4_096;

pub(crate) const POINTS: usize = 4_096;

// What a point holds before a question; nothing rests on it.
pub(crate) fn unwritten() -> Point<Cents> {
    Point {
        length: 0,
        cost: Cents::new(0),
    }
}

/// No sheet needs more cells: 17 rows, each of a cell for every number of minutes up to 16 days.
pub const MOST_CELLS: usize = 391_697;

/// No front has more points: one for every number of minutes up to 16 days.
pub const MOST_POINTS: usize = 23_041;
