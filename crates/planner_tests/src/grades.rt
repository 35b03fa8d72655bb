// Budgets and deadlines by grades.
use crate::samples::{graded, priced, row, used_cell};
use costs::Grade;
use model::Point;
use planner::{budget, deadline};
use sheets::{Call, Sheet};
use tariffs::{QuoteTable, Row};
use worked::{rows_g, sheet_x};

// The answer to a budget and the plan, if the deadline of that length is answered alike.
fn asked(sheet: &Sheet, rows: &[Row; 5], limit: u32) -> Option<(Point<Grade>, [u8; 4])> {
    let mut cells = [used_cell(); 80];
    let mut bytes = [9; 4];
    let table = QuoteTable::over(rows);
    let priced = priced(sheet, &table);
    let first = budget(&priced, Grade::new(limit), &mut cells, &mut bytes).ok()?;
    let planned = bytes;
    let second = deadline(&priced, first.length, &mut cells, &mut bytes).ok()?;
    (second == first && bytes == planned).then_some((first, planned))
}

#[test]
fn limits_of_x_by_g(rt: HostRuntime) {
    for (limit, outcome) in [
        (15, Some((graded(6, 9), [1, 1, 2, 9]))),
        (8, Some((graded(8, 4), [1, 1, 1, 9]))),
        (1, Some((graded(13, 1), [0, 0, 1, 9]))),
        (0, None),
    ] {
        assert_eq!(rt; asked(&sheet_x(), &rows_g(), limit), outcome);
    }
}

// Of three stages the middle one sets the grade, so the others take a smaller allowance at a higher grade than their best.
#[test]
fn a_stage_may_be_as_dear_as_another(rt: HostRuntime) {
    let sheet = Sheet::replay(&[
        Call::Stage,
        Call::Stage,
        Call::Stage,
        Call::Task { stage: 0, work: 10 },
        Call::Task { stage: 1, work: 20 },
        Call::Task { stage: 2, work: 10 },
    ]);
    let rows = [
        row(0, 10, 5, 1),
        row(1, 10, 2, 3),
        row(0, 20, 4, 3),
        row(1, 20, 1, 7),
        row(2, 20, 9, 2),
    ];
    for (limit, answer, plan) in [
        (7, graded(5, 7), [1, 1, 1, 9]),
        (6, graded(8, 3), [1, 0, 1, 9]),
        (2, graded(19, 2), [0, 2, 0, 9]),
    ] {
        assert_eq!(rt; asked(&sheet, &rows, limit), Some((answer, plan)));
    }
}
