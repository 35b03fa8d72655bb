// Fronts, and what they leave in memory.
use crate::samples::{
    altered, beginning, card, graded, point, priced, sheet_of_one, used_cell, used_point,
};
use costs::Cents;
use model::{Point, PricedSheet};
use planner::{QuestionRefusal, front};
use sheets::{Call, Sheet};
use tariffs::{NeverQuotes, QuoteTable, RateCard};
use worked::{card_a, rows_g, sheet_x};

fn front_of_x() -> [Point<Cents>; 9] {
    [
        point(3, 400),
        point(4, 375),
        point(6, 300),
        point(7, 285),
        point(8, 275),
        point(9, 260),
        point(12, 245),
        point(13, 235),
        point(16, 220),
    ]
}

// The answer with so many cells and points lent of used memory, how many cells were altered, and the points afterwards.
fn asked(
    priced: &PricedSheet<RateCard>,
    cell_count: usize,
    point_count: usize,
) -> (Result<usize, QuestionRefusal>, usize, [Point<Cents>; 12]) {
    let mut cells = [used_cell(); 64];
    let mut points = [used_point(); 12];
    let lent_cells = &mut cells[..cell_count.min(64)];
    let lent_points = &mut points[..point_count.min(12)];
    let answer = front(priced, lent_cells, lent_points);
    (answer, altered(&cells), points)
}

#[test]
fn the_front_of_x_by_a(rt: HostRuntime) {
    for (cells, points) in [(64, 12), (51, 9)] {
        assert_eq!(rt;
            asked(&priced(&sheet_x(), &card_a()), cells, points),
            (Ok(9), 51, beginning(&front_of_x()))
        );
    }
}

#[test]
fn memory_too_short_is_refused(rt: HostRuntime) {
    for (cells, points, refusal, altered) in [
        (50, 9, QuestionRefusal::TooFewCells, 0),
        (0, 0, QuestionRefusal::TooFewCells, 0),
        (64, 8, QuestionRefusal::TooShort, 51),
    ] {
        assert_eq!(rt;
            asked(&priced(&sheet_x(), &card_a()), cells, points),
            (Err(refusal), altered, [used_point(); 12])
        );
    }
}

#[test]
fn nothing_to_do_takes_no_time_and_costs_nothing(rt: HostRuntime) {
    let stages = Sheet::replay(&[Call::Stage, Call::Stage, Call::Stage]);
    for (sheet, needed) in [(Sheet::open(), 1), (stages, 4)] {
        assert_eq!(rt;
            asked(&priced(&sheet, &card_a()), needed, 1),
            (Ok(1), needed, beginning(&[point(0, 0)]))
        );
    }
}

#[test]
fn a_task_without_quotes_leaves_no_point(rt: HostRuntime) {
    let never: NeverQuotes<Cents> = NeverQuotes::new();
    let mut cells = [used_cell(); 3];
    assert_eq!(rt;
        asked(&priced(&sheet_of_one(7), &card(&[])), 3, 0),
        (Ok(0), 2, [used_point(); 12])
    );
    assert_eq!(rt;
        front(&priced(&sheet_x(), &never), &mut cells, &mut []),
        Ok(0)
    );
}

#[test]
fn memory_of_a_former_sheet_serves(rt: HostRuntime) {
    let card = card_a();
    let mut cells = [used_cell(); 51];
    let mut points = [used_point(); 9];
    let _ = front(&priced(&sheet_of_one(150), &card), &mut cells, &mut points);
    assert_eq!(rt;
        front(&priced(&sheet_x(), &card), &mut cells, &mut points),
        Ok(9)
    );
    assert_eq!(rt; points, front_of_x());
    assert_eq!(rt; cells[2].least(), None);
    assert_eq!(rt; cells[3].least(), Some(Cents::new(400)));
    assert_eq!(rt; cells[18].least(), Some(Cents::new(100)));
}

#[test]
fn the_front_of_x_by_g(rt: HostRuntime) {
    let sheet = sheet_x();
    let rows = rows_g();
    let table = QuoteTable::over(&rows);
    let mut cells = [used_cell(); 52];
    let mut points = [used_point(); 4];
    assert_eq!(rt;
        front(&priced(&sheet, &table), &mut cells, &mut points),
        Ok(3)
    );
    assert_eq!(rt;
        points,
        beginning(&[graded(6, 9), graded(8, 4), graded(13, 1)])
    );
    assert_eq!(rt; altered(&cells), 51);
}
