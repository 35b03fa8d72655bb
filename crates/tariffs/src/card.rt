// The rate card.
ghost use Rattle.std.specs.Prelude.{◌≡◌, ◌≤◌, length};

use crate::{Line, MAX_MACHINES};

pub mod lines;
pub mod tariff;

// Up to 32 lines, each a machine.
#[derive(Clone, Copy, PartialEq, Eq, Debug)]
pub struct RateCard {
    lines: [Line; MAX_MACHINES],
    count: usize,
    ghost counted: { count ≤ 32 },
    ghost whole: { length lines ≡ 32 },
}
