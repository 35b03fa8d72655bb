// Quotes.

// The longest time that is quoted, a day.
pub const MAX_MINUTES: u32 = 1_440;

// The time that a machine needs, in whole minutes, and what it costs.
#[derive(Clone, Copy, Drop, PartialEq, Eq, Debug)]
pub struct Quote<C> {
    pub minutes: u32,
    pub cost: C,
}
