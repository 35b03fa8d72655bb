// Sheets under a tariff with the minutes of all tasks, and with those of the standing ones.
use crate::samples::{card, priced};
use cells::{MinutesTable, TimedSheet, cheapest, span};
use costs::Cents;
use sheets::Sheet;
use tariffs::RateCard;
use worked::{card_a, sheet_x};

// The worked sheet with its first task struck.
fn sheet_x_struck() -> Sheet {
    let mut sheet = sheet_x();
    let _ = sheet.strike(0);
    sheet
}

// The minutes of four task numbers on four machines, the last of each past what there is.
fn minutes_of(timed: &TimedSheet<RateCard>) -> [[u32; 4]; 4] {
    let mut minutes = [[0; 4]; 4];
    for number in 0..4 {
        for machine in 0..4 {
            minutes[number][machine] = timed.minutes(number, machine);
        }
    }
    minutes
}

// The machines that are cheapest within five minutes for four task numbers, and what they cost.
fn cheapest_within_five(timed: &TimedSheet<RateCard>) -> [Option<(usize, Cents)>; 4] {
    let mut choices = [None; 4];
    for number in 0..4 {
        choices[number] = cheapest(timed, number, 5).map(|choice| (choice.machine, choice.cost));
    }
    choices
}

// What the sheet tells under the worked card, whichever call times it: the struck task has its minutes too.
const MINUTES: [[u32; 4]; 4] = [[10, 5, 2, 0], [6, 3, 1, 0], [6, 3, 1, 0], [0; 4]];

// Within five minutes the struck task's second machine costs 125 cents, those of the others 75.
fn second_machines() -> [Option<(usize, Cents)>; 4] {
    [
        Some((1, Cents::new(125))),
        Some((1, Cents::new(75))),
        Some((1, Cents::new(75))),
        None,
    ]
}

#[test]
fn all_tasks_are_timed(rt: HostRuntime) {
    let sheet = sheet_x_struck();
    let card = card_a();
    let mut table = MinutesTable::new();
    let timed = TimedSheet::of(&priced(&sheet, &card), &mut table);
    assert_eq!(rt; minutes_of(&timed), MINUTES);
    assert_eq!(rt; span(&timed), 12);
    assert_eq!(rt; cheapest_within_five(&timed), second_machines());
}

// The table first holds the minutes of a slower card.
#[test]
fn standing_tasks_are_timed_in_used_memory(rt: HostRuntime) {
    let sheet = sheet_x_struck();
    let slow = card(&[(5, 600)]);
    let card = card_a();
    let mut table = MinutesTable::new();
    let used = TimedSheet::of(&priced(&sheet, &slow), &mut table);
    assert_eq!(rt; span(&used), 24);
    let timed = TimedSheet::of_standing(&priced(&sheet, &card), &mut table);
    assert_eq!(rt; minutes_of(&timed), MINUTES);
    assert_eq!(rt; span(&timed), 12);
    assert_eq!(rt; cheapest_within_five(&timed), second_machines());
}
