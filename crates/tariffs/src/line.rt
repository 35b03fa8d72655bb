// The lines of a rate card.
ghost use Rattle.std.specs.Prelude.{◌≤◌};

pub mod quote;

// A machine's speed, in units a minute, and its rate, in cents an hour.
#[derive(Clone, Copy, PartialEq, Eq, Debug)]
pub struct Line {
    pub(crate) speed: u32,
    pub(crate) rate: u32,
    ghost moving: { 1 ≤ speed },
    ghost limited: { speed ≤ 10000 },
    ghost priced: { rate ≤ 1000000 },
}
