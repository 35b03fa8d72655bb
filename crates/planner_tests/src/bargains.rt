// Whether two sheets, each under its tariff, offer the same bargains.
use crate::samples::{
    altered, beginning, card, point, priced, row, sheet_of_one, sheet_x_reordered, used_cell,
    used_point,
};
use costs::{Cents, Grade};
use model::{Point, PricedSheet};
use planner::{QuestionRefusal, same_bargains};
use sheets::Sheet;
use tariffs::{NeverQuotes, QuoteTable, RateCard, Row, Tariff};
use worked::{card_a, rows_g, sheet_x};

// The answer with so many cells and points lent of used memory, how many cells were altered, and the points afterwards.
fn asked<T: Tariff<Cost = Cents>>(
    first: &PricedSheet<T>,
    second: &PricedSheet<RateCard>,
    cell_count: usize,
    first_count: usize,
    second_count: usize,
) -> (
    Result<bool, QuestionRefusal>,
    usize,
    [[Point<Cents>; 12]; 2],
) {
    let mut cells = [used_cell(); 128];
    let mut first_points = [used_point(); 12];
    let mut second_points = [used_point(); 12];
    let lent_cells = &mut cells[..cell_count.min(128)];
    let lent_first = &mut first_points[..first_count.min(12)];
    let lent_second = &mut second_points[..second_count.min(12)];
    let answer = same_bargains(first, second, lent_cells, lent_first, lent_second);
    (answer, altered(&cells), [first_points, second_points])
}

#[test]
fn x_by_a_against_others(rt: HostRuntime) {
    let x = sheet_x();
    let a = card_a();
    let mut reworked = x;
    let _ = reworked.rework(1, 61);
    for (sheet, lines, equal) in [
        // the order of tasks and machines does not matter
        (
            sheet_x_reordered(),
            [(60, 6000), (10, 600), (20, 1500), (20, 1500)],
            true,
        ),
        // a line that another beats does not matter
        (
            sheet_x(),
            [(10, 600), (10, 601), (20, 1500), (60, 6000)],
            true,
        ),
        (
            sheet_x(),
            [(10, 600), (5, 600), (20, 1500), (60, 6000)],
            true,
        ),
        // a cheaper line, another work and a missing task do
        (
            sheet_x(),
            [(10, 600), (60, 5940), (20, 1500), (60, 6000)],
            false,
        ),
        (
            reworked,
            [(10, 600), (20, 1500), (60, 6000), (60, 6000)],
            false,
        ),
        (
            sheet_of_one(60),
            [(10, 600), (20, 1500), (60, 6000), (60, 6000)],
            false,
        ),
    ] {
        let other = card(&lines);
        let (answer, _, _) = asked(&priced(&x, &a), &priced(&sheet, &other), 128, 12, 12);
        assert_eq!(rt; answer, Ok(equal));
    }
}

// X by two tables.
fn by_tables(first: &[Row], second: &[Row]) -> Result<bool, QuestionRefusal> {
    let sheet = sheet_x();
    let mut cells = [used_cell::<Grade>(); 64];
    let mut first_points = [used_point(); 4];
    let mut second_points = [used_point(); 4];
    same_bargains(
        &priced(&sheet, &QuoteTable::over(first)),
        &priced(&sheet, &QuoteTable::over(second)),
        &mut cells,
        &mut first_points,
        &mut second_points,
    )
}

#[test]
fn a_row_that_another_beats_does_not_matter(rt: HostRuntime) {
    let [a, b, c, d, e] = rows_g();
    for (minutes, equal) in [(3, true), (2, false)] {
        assert_eq!(rt;
            by_tables(&rows_g(), &[e, d, row(7, 60, minutes, 4), c, b, a]),
            Ok(equal)
        );
    }
}

#[test]
fn empty_fronts_are_equal(rt: HostRuntime) {
    let x = sheet_x();
    let never: NeverQuotes<Cents> = NeverQuotes::new();
    for (sheet, card, equal) in [
        (sheet_of_one(7), card(&[]), true),
        (sheet_of_one(1_000_000), card_a(), true),
        (sheet_x(), card_a(), false),
        (Sheet::open(), card(&[]), false),
    ] {
        let (answer, _, _) = asked(&priced(&x, &never), &priced(&sheet, &card), 64, 0, 9);
        assert_eq!(rt; answer, Ok(equal));
    }
}

#[test]
fn memory_too_short_for_either_sheet_is_refused(rt: HostRuntime) {
    let few = Err(QuestionRefusal::TooFewCells);
    let short = Err(QuestionRefusal::TooShort);
    let nothing_to_do = beginning(&[point(0, 0)]);
    let used = [used_point(); 12];
    let x = sheet_x();
    let empty = Sheet::open();
    let a = card_a();
    for (first, second, cells, answer, altered, first_points) in [
        (x, empty, 50, few, 0, used),
        (empty, x, 50, few, 0, used),
        (x, empty, 64, short, 51, used),
        (empty, x, 64, short, 51, nothing_to_do),
    ] {
        assert_eq!(rt;
            asked(&priced(&first, &a), &priced(&second, &a), cells, 8, 8),
            (answer, altered, [first_points, used])
        );
    }
}
