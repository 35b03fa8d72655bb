// Cents, an amount of money.
ghost use Rattle.std.specs.Prelude.{◌≤◌};

pub mod kind;
pub mod text;

// Whole cents from 0 to 10^15.
#[derive(Clone, Copy, PartialEq, Eq, PartialOrd, Ord, Debug)]
pub struct Cents {
    value: u64,
    ghost within: { value ≤ 1000000000000000 },
}
