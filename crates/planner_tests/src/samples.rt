// Sheets, tariffs and memory for the tests, and refusals by their numbers.
use costs::{Cents, Cost, Grade};
use model::{Cell, Point, PricedSheet};
use planner::QuestionRefusal;
use refusals::Refusal;
use sheets::{Call, Sheet};
use std::array;
use tariffs::{RateCard, Row};

// The calls of the worked sheet in another order, with a struck task between.
pub(crate) fn sheet_x_reordered() -> Sheet {
    Sheet::replay(&[
        Call::Stage,
        Call::Stage,
        Call::Task { stage: 1, work: 60 },
        Call::Task { stage: 0, work: 60 },
        Call::Task { stage: 1, work: 60 },
        Call::Strike { task: 2 },
        Call::Task {
            stage: 0,
            work: 100,
        },
    ])
}

// One stage with one task.
pub(crate) fn sheet_of_one(work: u32) -> Sheet {
    Sheet::replay(&[Call::Stage, Call::Task { stage: 0, work }])
}

// A card of these speeds and rates.
pub(crate) fn card(lines: &[(u32, u32)]) -> RateCard {
    let mut card = RateCard::new();
    for (speed, rate) in lines {
        let _ = card.add(*speed, *rate);
    }
    card
}

pub(crate) fn row(machine: u32, work: u32, minutes: u32, grade: u32) -> Row {
    Row {
        machine,
        work,
        minutes,
        grade,
    }
}

pub(crate) fn priced<'a, T>(sheet: &'a Sheet, tariff: &'a T) -> PricedSheet<'a, T> {
    PricedSheet { sheet, tariff }
}

pub(crate) fn point(length: u32, cents: u64) -> Point<Cents> {
    Point {
        length,
        cost: Cents::new(cents),
    }
}

pub(crate) fn graded(length: u32, number: u32) -> Point<Grade> {
    Point {
        length,
        cost: Grade::new(number),
    }
}

// A cost kind with a cost that no question leaves.
pub(crate) trait Used: Cost {
    fn used() -> Self;
}

impl Used for Cents {
    fn used() -> Cents {
        Cents::new(77)
    }
}

impl Used for Grade {
    fn used() -> Grade {
        Grade::new(12)
    }
}

// Cells and points that hold what no question leaves.
pub(crate) fn used_cell<C: Used>() -> Cell<C> {
    Cell {
        reached: true,
        cost: C::used(),
    }
}

pub(crate) fn used_point<C: Used>() -> Point<C> {
    Point {
        length: 88,
        cost: C::used(),
    }
}

// How many cells were altered, up to the last such. A question that fills its cells alters the last of them.
pub(crate) fn altered<C: Used + PartialEq>(cells: &[Cell<C>]) -> usize {
    cells
        .iter()
        .rposition(|cell| *cell != used_cell())
        .map_or(0, |last| last + 1)
}

// Used memory that begins with these points.
pub(crate) fn beginning<C: Used, const N: usize>(points: &[Point<C>]) -> [Point<C>; N] {
    array::from_fn(|place| points.get(place).copied().unwrap_or(used_point()))
}

// The answer, or the refusal's number and what it carries.
pub(crate) fn told(
    answer: Result<Point<Cents>, QuestionRefusal>,
) -> Result<Point<Cents>, (u8, Option<usize>)> {
    answer.map_err(|refusal| (refusal.number(), refusal.carried()))
}
