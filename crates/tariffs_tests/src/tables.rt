// Quote tables.
use costs::Grade;
use refusals::Refusal;
use tariffs::{Quote, QuoteTable, Row, RowRefusal, Tariff, check_rows};

fn row(machine: u32, work: u32, minutes: u32, grade: u32) -> Row {
    Row {
        machine,
        work,
        minutes,
        grade,
    }
}

fn quote(minutes: u32, grade: u32) -> Option<Quote<Grade>> {
    Some(Quote {
        minutes,
        cost: Grade::new(grade),
    })
}

#[test]
fn the_first_row_for_a_machine_and_work_quotes(rt: HostRuntime) {
    let rows = [
        row(0, 100, 10, 1),
        row(2, 60, 1, 9),
        row(2, 60, 2, 8),
        row(2, 100, 3, 15),
    ];
    let table = QuoteTable::over(&rows);
    for (machine, work, expected) in [
        (2, 60, quote(1, 9)),
        (2, 100, quote(3, 15)),
        (0, 60, None),
        (32, 60, None),
    ] {
        assert_eq!(rt; table.quote(machine, work), expected);
    }
    assert_eq!(rt; table.machines(), 32);
    assert_eq!(rt; QuoteTable::over(&[]).quote(0, 60), None);
}

#[test]
fn each_number_of_a_row_has_its_range(rt: HostRuntime) {
    assert_eq!(rt;
        check_rows(&[row(31, 1_000_000, 1440, 15), row(0, 1, 1, 0)]),
        Ok(())
    );
    let bad = [
        row(32, 1, 1, 0),
        row(0, 0, 1, 0),
        row(0, 1_000_001, 1, 0),
        row(0, 1, 0, 0),
        row(0, 1, 1441, 0),
        row(0, 1, 1, 16),
    ];
    for row in bad {
        assert_eq!(rt; check_rows(&[row]), Err(RowRefusal::Bad(0)));
    }
}

#[test]
fn a_bad_row_behind_a_good_one_silences_the_table(rt: HostRuntime) {
    let rows = [row(0, 60, 6, 1), row(1, 60, 3, 16), row(1, 0, 3, 1)];
    assert_eq!(rt; check_rows(&rows), Err(RowRefusal::Bad(1)));
    assert_eq!(rt; RowRefusal::Bad(1).number(), 6);
    assert_eq!(rt; RowRefusal::Bad(1).carried(), Some(1));
    assert_eq!(rt; QuoteTable::over(&rows).quote(0, 60), None);
    assert_eq!(rt; QuoteTable::over(&rows[0..1]).quote(0, 60), quote(6, 1));
}

#[test]
fn at_most_256_rows(rt: HostRuntime) {
    let mut rows = [row(0, 60, 6, 1); 257];
    assert_eq!(rt; check_rows(&rows[0..256]), Ok(()));
    assert_eq!(rt; QuoteTable::over(&rows[0..256]).quote(0, 60), quote(6, 1));
    assert_eq!(rt; check_rows(&rows), Err(RowRefusal::TooMany));
    assert_eq!(rt; RowRefusal::TooMany.carried(), Some(256));
    assert_eq!(rt; QuoteTable::over(&rows).quote(0, 60), None);
    rows[256] = row(0, 60, 0, 1);
    assert_eq!(rt; check_rows(&rows), Err(RowRefusal::Bad(256)));
}
