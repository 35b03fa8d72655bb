// Limits under which a sheet is planned.
use crate::draw::{one_in, pair};
use crate::pair::Pair;
use crate::report::Question;
use trials::Sequence;

#[derive(Clone, Copy, Drop, PartialEq, Eq, Debug)]
pub(crate) enum Limit {
    Budget(u64),
    Deadline(u32),
}

impl Limit {
    pub(crate) fn question(self) -> Question {
        match self {
            Limit::Budget(_) => Question::Budget,
            Limit::Deadline(_) => Question::Deadline,
        }
    }

    // A limit about the length or the cost of one of these pairs, or one far from all of them.
    pub(crate) fn drawn(numbers: &mut Sequence, pairs: &[Pair]) -> Limit {
        let Pair { length, cost } = pair(numbers, pairs);
        match numbers.next(0, 10) {
            0 => Limit::Budget(cost.saturating_sub(1)),
            1..=2 => Limit::Budget(cost),
            3 => Limit::Budget(cost.saturating_add(u64::from(numbers.next(1, 10)))),
            4 => Limit::Budget(far_budget(numbers)),
            5 => Limit::Deadline(length.saturating_sub(1)),
            6..=7 => Limit::Deadline(length),
            8 => Limit::Deadline(length.saturating_add(numbers.next(1, 10))),
            _ => Limit::Deadline(far_deadline(numbers)),
        }
    }
}

fn far_budget(numbers: &mut Sequence) -> u64 {
    match numbers.next(0, 3) {
        0 => 0,
        1 => u64::MAX,
        _ => u64::from(numbers.next(0, 2_000_000)),
    }
}

fn far_deadline(numbers: &mut Sequence) -> u32 {
    match numbers.next(0, 3) {
        0 => 0,
        1 => u32::MAX,
        _ if one_in(numbers, 2) => numbers.next(0, 40_000),
        _ => numbers.next(1 << 31, 1 << 31),
    }
}
