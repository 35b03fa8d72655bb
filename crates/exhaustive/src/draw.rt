// Sheets, prices and limits that look random.
use crate::book::Book;
use crate::given::Charge;
use crate::kind::{Kind, MOST_CENTS};
use crate::pair::Pair;
use crate::prices::Terms;
use sheets::Call;
use tariffs::Row;
use trials::Sequence;

// The greatest numbers of a sheet and its prices.
#[derive(Clone, Copy)]
pub(crate) struct Scale {
    pub(crate) stages: u32,
    pub(crate) tasks: u32,
    pub(crate) calls: u32,
    pub(crate) lines: u32,
    pub(crate) rows: u32,
    // The works of tasks under a card, and the times of rows.
    pub(crate) works: u32,
    pub(crate) minutes: u32,
}

// Every assignment and every allowance list can be tried.
pub(crate) const FEW_MINUTES: Scale = Scale {
    stages: 3,
    tasks: 5,
    calls: 24,
    lines: 4,
    rows: 12,
    works: 12,
    minutes: 10,
};

// The same with times up to the longest.
pub(crate) const MANY_MINUTES: Scale = Scale {
    stages: 2,
    tasks: 3,
    calls: 16,
    lines: 3,
    rows: 8,
    works: 1_500,
    minutes: 1_440,
};

// More than any sheet, card or table takes.
pub(crate) const TOO_MANY: Scale = Scale {
    stages: 20,
    tasks: 300,
    calls: 500,
    lines: 40,
    rows: 300,
    works: 1_500,
    minutes: 1_440,
};

// Works under a table: few, so that rows bear on tasks.
const TABLE_WORKS: u32 = 3;

// A work that only fast machines finish within a day.
const LONG_WORK: u32 = 20_000;

const SPEEDS: [u32; 8] = [1, 1, 2, 2, 3, 5, 1_000, 10_000];

const RATES: [u32; 8] = [0, 1, 30, 60, 100, 600, 6_000, 1_000_000];

pub(crate) fn one_in(numbers: &mut Sequence, count: u32) -> bool {
    numbers.next(0, count) == 0
}

// A place in so many values.
pub(crate) fn place(numbers: &mut Sequence, count: usize) -> usize {
    let count = u32::try_from(count).unwrap_or(u32::MAX);
    numbers.next(0, count) as usize
}

// A number that is none of so many, just past them or far. One that is cut to 32 bits is again one of them.
fn past(numbers: &mut Sequence, count: usize) -> usize {
    match numbers.next(0, 6) {
        0 => usize::MAX,
        1 => u32::MAX as usize,
        2 => place(numbers, count).saturating_add(1 << 32),
        3 => count.saturating_add(place(numbers, 1_000)),
        _ => count,
    }
}

// A place in so many values, now and then one past them.
fn index(numbers: &mut Sequence, count: usize) -> usize {
    if one_in(numbers, 12) {
        past(numbers, count)
    } else {
        place(numbers, count)
    }
}

// Memory of about the size that is needed: none, much too little, one too little, enough, or more.
pub(crate) fn about(numbers: &mut Sequence, needed: usize) -> usize {
    match numbers.next(0, 32) {
        0 => 0,
        1 => place(numbers, needed),
        2..=5 => needed.saturating_sub(1),
        6..=20 => needed,
        _ => needed.saturating_add(numbers.next(1, 5) as usize),
    }
}

// One of these pairs.
pub(crate) fn pair(numbers: &mut Sequence, pairs: &[Pair]) -> Pair {
    pairs
        .get(place(numbers, pairs.len()))
        .copied()
        .unwrap_or(Pair { length: 0, cost: 0 })
}

fn pick(numbers: &mut Sequence, choices: &[u32]) -> u32 {
    let place = place(numbers, choices.len());
    choices.get(place).copied().unwrap_or(0)
}

pub(crate) fn work(numbers: &mut Sequence, kind: Kind, scale: Scale) -> u32 {
    match numbers.next(0, 32) {
        0 => 0,
        1 => 1_000_001,
        2..=3 => LONG_WORK,
        _ => match kind {
            Kind::Cents => numbers.next(1, scale.works),
            Kind::Grades => numbers.next(1, TABLE_WORKS),
        },
    }
}

fn question(numbers: &mut Sequence) -> Call {
    match numbers.next(0, 3) {
        0 => Call::Front,
        1 => Call::Budget,
        _ => Call::Deadline,
    }
}

// A call of a sheet with this book.
pub(crate) fn call(numbers: &mut Sequence, kind: Kind, scale: Scale, book: &Book) -> Call {
    let tasks = book.entries.len();
    match numbers.next(0, 16) {
        0..=3 if book.stages < scale.stages as usize => Call::Stage,
        4..=5 => Call::Rework {
            task: index(numbers, tasks),
            work: work(numbers, kind, scale),
        },
        6 => Call::Strike {
            task: index(numbers, tasks),
        },
        7 => question(numbers),
        _ if book.standing_count() < scale.tasks as usize => Call::Task {
            stage: index(numbers, book.stages),
            work: work(numbers, kind, scale),
        },
        _ => Call::Strike {
            task: index(numbers, tasks),
        },
    }
}

pub(crate) fn terms(numbers: &mut Sequence) -> Terms {
    let speed = match numbers.next(0, 40) {
        0 => 0,
        1 => 10_001,
        _ => pick(numbers, &SPEEDS),
    };
    let rate = match numbers.next(0, 40) {
        0 => 1_000_001,
        1..=20 => numbers.next(0, 1_000),
        _ => pick(numbers, &RATES),
    };
    Terms { speed, rate }
}

// A charge, at the greatest cost or near it as often as not.
pub(crate) fn charge(numbers: &mut Sequence, scale: Scale) -> Charge {
    let minutes = match numbers.next(0, 24) {
        0 => 0,
        1 => 1_441,
        _ => numbers.next(1, scale.minutes),
    };
    let cents = match numbers.next(0, 8) {
        0 => MOST_CENTS,
        1 => MOST_CENTS.saturating_sub(u64::from(numbers.next(0, 10))),
        2 => (MOST_CENTS / 2).saturating_sub(u64::from(numbers.next(0, 3))),
        3 => u64::MAX,
        _ => u64::from(numbers.next(0, 20)),
    };
    Charge { minutes, cents }
}

// A row with one number out of range.
fn damaged(numbers: &mut Sequence, row: Row) -> Row {
    match numbers.next(0, 6) {
        0 => Row { machine: 32, ..row },
        1 => Row { work: 0, ..row },
        2 => Row {
            work: 1_000_001,
            ..row
        },
        3 => Row { minutes: 0, ..row },
        4 => Row {
            minutes: 1_441,
            ..row
        },
        _ => Row { grade: 16, ..row },
    }
}

pub(crate) fn row(numbers: &mut Sequence, scale: Scale) -> Row {
    let machine = if one_in(numbers, 16) {
        31
    } else {
        numbers.next(0, 3)
    };
    let grades = if one_in(numbers, 2) { 16 } else { 4 };
    let row = Row {
        machine,
        work: numbers.next(1, TABLE_WORKS),
        minutes: numbers.next(1, scale.minutes),
        grade: numbers.next(0, grades),
    };
    if one_in(numbers, 120) {
        damaged(numbers, row)
    } else {
        row
    }
}
