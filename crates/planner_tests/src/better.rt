// Which of two sheets, each under its tariff, has the better bargain.
use crate::samples::{
    card, graded, point, priced, row, sheet_of_one, sheet_x_reordered, used_cell, used_point,
};
use costs::{Cents, Grade};
use model::{Better, PricedSheet};
use planner::{QuestionRefusal, better_bargain};
use tariffs::{NeverQuotes, QuoteTable, Row, Tariff};
use worked::{card_a, rows_g, sheet_x};

fn asked<T: Tariff<Cost = Cents>, U: Tariff<Cost = Cents>>(
    first: &PricedSheet<T>,
    second: &PricedSheet<U>,
) -> Result<Option<Better<Cents>>, QuestionRefusal> {
    let mut cells = [used_cell(); 128];
    let mut first_points = [used_point(); 12];
    let mut second_points = [used_point(); 12];
    better_bargain(
        first,
        second,
        &mut cells,
        &mut first_points,
        &mut second_points,
    )
}

// The same of sheet X by two tables.
fn by_tables(first: &[Row], second: &[Row]) -> Result<Option<Better<Grade>>, QuestionRefusal> {
    let sheet = sheet_x();
    let mut cells = [used_cell::<Grade>(); 64];
    let mut first_points = [used_point(); 4];
    let mut second_points = [used_point(); 4];
    better_bargain(
        &priced(&sheet, &QuoteTable::over(first)),
        &priced(&sheet, &QuoteTable::over(second)),
        &mut cells,
        &mut first_points,
        &mut second_points,
    )
}

#[test]
fn x_by_a_against_other_cards(rt: HostRuntime) {
    let x = sheet_x();
    let a = card_a();
    for (sheet, lines, better) in [
        // the order of tasks and machines does not matter
        (
            sheet_x_reordered(),
            [(60, 6000), (10, 600), (20, 1500)],
            None,
        ),
        // without the fastest machine nothing takes 3 minutes
        (
            x,
            [(10, 600), (20, 1500), (20, 1500)],
            Some(Better::First(point(3, 400))),
        ),
        // without the cheapest nothing within 7 minutes costs 285
        (
            x,
            [(20, 1500), (20, 1500), (60, 6000)],
            Some(Better::First(point(7, 285))),
        ),
        // a cheaper line costs less at the same length
        (
            x,
            [(10, 600), (20, 1500), (60, 5940)],
            Some(Better::Second(point(3, 396))),
        ),
        // and a faster one takes less time
        (
            x,
            [(10, 600), (20, 1500), (100, 9000)],
            Some(Better::Second(point(2, 450))),
        ),
    ] {
        let other = card(&lines);
        assert_eq!(rt; asked(&priced(&x, &a), &priced(&sheet, &other)), Ok(better));
        let exchanged = match better {
            Some(Better::First(pair)) => Some(Better::Second(pair)),
            Some(Better::Second(pair)) => Some(Better::First(pair)),
            None => None,
        };
        assert_eq!(rt;
            asked(&priced(&sheet, &other), &priced(&x, &a)),
            Ok(exchanged)
        );
    }
}

#[test]
fn a_front_that_goes_on_has_the_better_bargain(rt: HostRuntime) {
    let task = sheet_of_one(60);
    let fast = card(&[(20, 1500), (60, 6000)]);
    assert_eq!(rt;
        asked(&priced(&task, &card_a()), &priced(&task, &fast)),
        Ok(Some(Better::First(point(6, 60))))
    );
    assert_eq!(rt;
        asked(&priced(&task, &fast), &priced(&task, &card_a())),
        Ok(Some(Better::Second(point(6, 60))))
    );
}

#[test]
fn a_task_that_nothing_quotes_has_no_bargain(rt: HostRuntime) {
    let task = sheet_of_one(60);
    let never: NeverQuotes<Cents> = NeverQuotes::new();
    assert_eq!(rt;
        asked(&priced(&task, &never), &priced(&task, &card_a())),
        Ok(Some(Better::Second(point(1, 100))))
    );
    assert_eq!(rt;
        asked(&priced(&task, &card_a()), &priced(&task, &never)),
        Ok(Some(Better::First(point(1, 100))))
    );
    assert_eq!(rt;
        asked(&priced(&task, &never), &priced(&sheet_x(), &never)),
        Ok(None)
    );
}

#[test]
fn x_by_g_and_one_more_row(rt: HostRuntime) {
    let [a, b, c, d, e] = rows_g();
    for (minutes, grade, better) in [
        (3, 4, None),
        (2, 4, Some(Better::Second(graded(7, 4)))),
        (1, 8, Some(Better::Second(graded(6, 8)))),
    ] {
        let rows = [a, b, c, d, e, row(7, 60, minutes, grade)];
        assert_eq!(rt; by_tables(&rows_g(), &rows), Ok(better));
    }
}

#[test]
fn memory_too_short_is_refused(rt: HostRuntime) {
    let x = sheet_x();
    let a = card_a();
    let mut cells = [used_cell(); 51];
    let mut points = [used_point(); 9];
    assert_eq!(rt;
        better_bargain(
            &priced(&x, &a),
            &priced(&x, &a),
            &mut cells[..50],
            &mut points,
            &mut [used_point(); 9]
        ),
        Err(QuestionRefusal::TooFewCells)
    );
    assert_eq!(rt;
        better_bargain(
            &priced(&x, &a),
            &priced(&x, &a),
            &mut cells,
            &mut points,
            &mut [used_point(); 8]
        ),
        Err(QuestionRefusal::TooShort)
    );
}
