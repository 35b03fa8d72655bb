// Cost kinds, with costs as plain numbers.

#[derive(Clone, Copy, Drop, PartialEq, Eq, Debug)]
pub(crate) enum Kind {
    Cents,
    Grades,
}

// The neutral cost of both kinds.
pub(crate) const NEUTRAL: u64 = 0;

pub(crate) const MOST_CENTS: u64 = 1_000_000_000_000_000;

impl Kind {
    pub(crate) fn join(self, first: u64, second: u64) -> u64 {
        match self {
            Kind::Cents => first.saturating_add(second).min(MOST_CENTS),
            Kind::Grades => first.max(second),
        }
    }
}
