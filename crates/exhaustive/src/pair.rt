// Lengths with costs.

// A length in minutes, and a cost as a plain number.
#[derive(Clone, Copy, Drop, PartialEq, Eq, Debug)]
pub(crate) struct Pair {
    pub(crate) length: u32,
    pub(crate) cost: u64,
}

impl Pair {
    // Whether it is no longer and no dearer.
    pub(crate) fn is_within(self, other: Pair) -> bool {
        self.length <= other.length && self.cost <= other.cost
    }

    // Whether it is shorter, or as long and cheaper.
    pub(crate) fn precedes(self, other: Pair) -> bool {
        (self.length, self.cost) < (other.length, other.cost)
    }

    pub(crate) fn beats(self, other: Pair) -> bool {
        self.is_within(other) && self != other
    }
}
