// Budgets and deadlines in cents: answers, plans, refusals, and what they leave in memory.
use crate::samples::{
    altered, card, point, priced, sheet_of_one, sheet_x_reordered, told, used_cell,
};
use costs::Cents;
use model::{Point, PricedSheet};
use planner::{budget, deadline};
use sheets::{Call, Sheet};
use tariffs::RateCard;
use worked::{card_a, sheet_x};

#[derive(Clone, Copy)]
enum Limit {
    Budget(u64),
    Deadline(u32),
}

// The answer with so many cells and bytes lent of used memory, the bytes afterwards, and how many cells were altered.
fn asked(
    priced: &PricedSheet<RateCard>,
    limit: Limit,
    cell_count: usize,
    byte_count: usize,
) -> (Result<Point<Cents>, (u8, Option<usize>)>, [u8; 5], usize) {
    let mut cells = [used_cell(); 80];
    let mut bytes = [9; 5];
    let lent_cells = &mut cells[..cell_count.min(80)];
    let lent_bytes = &mut bytes[..byte_count.min(5)];
    let answer = match limit {
        Limit::Budget(cents) => budget(priced, Cents::new(cents), lent_cells, lent_bytes),
        Limit::Deadline(minutes) => deadline(priced, minutes, lent_cells, lent_bytes),
    };
    (told(answer), bytes, altered(&cells))
}

#[test]
fn limits_of_x_by_a(rt: HostRuntime) {
    for (limit, answer, plan) in [
        (Limit::Budget(u64::MAX), Ok(point(3, 400)), [2, 2, 2, 9, 9]),
        (Limit::Budget(399), Ok(point(4, 375)), [2, 1, 2, 9, 9]),
        (Limit::Budget(260), Ok(point(9, 260)), [1, 0, 1, 9, 9]),
        (Limit::Budget(259), Ok(point(12, 245)), [1, 0, 0, 9, 9]),
        (Limit::Budget(220), Ok(point(16, 220)), [0, 0, 0, 9, 9]),
        (Limit::Budget(219), Err((10, None)), [9; 5]),
        (Limit::Deadline(2), Err((10, None)), [9; 5]),
        (Limit::Deadline(3), Ok(point(3, 400)), [2, 2, 2, 9, 9]),
        (Limit::Deadline(5), Ok(point(4, 375)), [2, 1, 2, 9, 9]),
        (Limit::Deadline(15), Ok(point(13, 235)), [0, 0, 1, 9, 9]),
        (
            Limit::Deadline(4_294_967_295),
            Ok(point(16, 220)),
            [0, 0, 0, 9, 9],
        ),
    ] {
        assert_eq!(rt;
            asked(&priced(&sheet_x(), &card_a()), limit, 64, 5),
            (answer, plan, 51)
        );
    }
}

#[test]
fn memory_too_short_is_refused_and_left_alone(rt: HostRuntime) {
    for (cells, bytes, number) in [(50, 3, 7), (50, 2, 7), (0, 0, 7), (51, 2, 8)] {
        for limit in [Limit::Budget(0), Limit::Deadline(5)] {
            assert_eq!(rt;
                asked(&priced(&sheet_x(), &card_a()), limit, cells, bytes),
                (Err((number, None)), [9; 5], 0)
            );
        }
    }
}

#[test]
fn the_lowest_task_without_quotes_is_told(rt: HostRuntime) {
    let mut sheet = Sheet::replay(&[
        Call::Stage,
        Call::Stage,
        Call::Task { stage: 1, work: 60 },
        Call::Task {
            stage: 1,
            work: 1_000_000,
        },
        Call::Task { stage: 0, work: 60 },
        Call::Task {
            stage: 0,
            work: 900_000,
        },
    ]);
    assert_eq!(rt;
        asked(&priced(&sheet, &card_a()), Limit::Budget(1000), 39, 3),
        (Err((8, None)), [9; 5], 0)
    );
    for (call, task) in [
        (Call::Front, 1),
        (Call::Strike { task: 1 }, 3),
        (
            Call::Rework {
                task: 0,
                work: 1_000_000,
            },
            0,
        ),
    ] {
        let _ = sheet.perform(call);
        assert_eq!(rt;
            asked(&priced(&sheet, &card_a()), Limit::Deadline(0), 39, 4),
            (Err((9, Some(task))), [9; 5], 0)
        );
    }
    assert_eq!(rt;
        asked(
            &priced(&sheet_of_one(7), &card(&[])),
            Limit::Budget(5),
            2,
            1
        ),
        (Err((9, Some(0))), [9; 5], 0)
    );
}

// Two stages of one work each, so that most pairs come from two allowance lists.
fn alike() -> Sheet {
    Sheet::replay(&[
        Call::Stage,
        Call::Task { stage: 0, work: 60 },
        Call::Stage,
        Call::Task { stage: 1, work: 60 },
    ])
}

#[test]
fn plans_go_by_the_first_list_and_the_lowest_machine(rt: HostRuntime) {
    let tied = card(&[(10, 700), (10, 600), (10, 600), (20, 1500)]);
    for (sheet, card, limit, answer, plan) in [
        (alike(), card_a(), 199, point(4, 175), [2, 1, 9, 9, 9]),
        (alike(), card_a(), 150, point(6, 150), [1, 1, 9, 9, 9]),
        (alike(), card_a(), 149, point(9, 135), [1, 0, 9, 9, 9]),
        (
            sheet_x_reordered(),
            card_a(),
            399,
            point(4, 375),
            [2, 1, 255, 2, 9],
        ),
        (
            sheet_x_reordered(),
            card_a(),
            259,
            point(12, 245),
            [0, 0, 255, 1, 9],
        ),
        (sheet_x(), tied, 220, point(16, 220), [1, 1, 1, 9, 9]),
    ] {
        let (told, bytes, _) = asked(&priced(&sheet, &card), Limit::Budget(limit), 64, 5);
        assert_eq!(rt; (told, bytes), (Ok(answer), plan));
    }
}

#[test]
fn plans_follow_strikes_and_reworks(rt: HostRuntime) {
    let mut sheet = sheet_x();
    for (call, limit, answer, plan, cells) in [
        (Call::Front, 300, point(6, 300), [1, 1, 2, 9, 9], 51),
        (
            Call::Strike { task: 1 },
            299,
            point(5, 275),
            [2, 255, 1, 9, 9],
            51,
        ),
        (
            Call::Rework { task: 2, work: 120 },
            300,
            point(11, 275),
            [1, 255, 1, 9, 9],
            69,
        ),
        (
            Call::Strike { task: 0 },
            200,
            point(2, 200),
            [255, 255, 2, 9, 9],
            39,
        ),
        (
            Call::Strike { task: 2 },
            0,
            point(0, 0),
            [255, 255, 255, 9, 9],
            3,
        ),
    ] {
        let _ = sheet.perform(call);
        assert_eq!(rt;
            asked(&priced(&sheet, &card_a()), Limit::Budget(limit), 80, 5),
            (Ok(answer), plan, cells)
        );
    }
}

#[test]
fn memory_serves_one_question_after_another(rt: HostRuntime) {
    let sheet = sheet_x();
    let card = card_a();
    let priced = priced(&sheet, &card);
    let mut cells = [used_cell(); 51];
    let mut bytes = [9; 3];
    let _ = budget(&priced, Cents::new(399), &mut cells, &mut bytes);
    let answer = deadline(&priced, 12, &mut cells, &mut bytes);
    let refused = deadline(&priced, 2, &mut cells, &mut bytes);
    assert_eq!(rt; told(answer), Ok(point(12, 245)));
    assert_eq!(rt; told(refused), Err((10, None)));
    assert_eq!(rt; bytes, [1, 0, 0]);
}

// 16 stages of 16 tasks of one unit each.
fn largest_sheet() -> Sheet {
    let mut sheet = Sheet::open();
    for _ in 0..16 {
        let _ = sheet.stage();
    }
    for number in 0..256 {
        let _ = sheet.task(number % 16, 1);
    }
    sheet
}

#[test]
fn the_largest_sheet_and_the_longest_stage_are_planned(rt: HostRuntime) {
    let mut cells = [used_cell(); 2880];
    let mut bytes = [9; 256];
    let card = card(&[(694, 601), (695, 600)]);
    let longest = budget(
        &priced(&sheet_of_one(1_000_000), &card),
        Cents::new(14_390),
        &mut cells,
        &mut bytes,
    );
    assert_eq!(rt; told(longest), Ok(point(1439, 14_390)));
    assert_eq!(rt; [bytes[0], bytes[1]], [1, 9]);
    let largest = deadline(&priced(&largest_sheet(), &card), 16, &mut cells, &mut bytes);
    assert_eq!(rt; told(largest), Ok(point(16, 2560)));
    assert_eq!(rt; bytes, [1; 256]);
}
