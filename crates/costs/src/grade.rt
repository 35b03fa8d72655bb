// Custody grades.
ghost use Rattle.std.specs.Prelude.{◌≤◌};

pub mod kind;
pub mod text;

// How far data leave the house: from 0, they stay in it, to 15.
#[derive(Clone, Copy, PartialEq, Eq, PartialOrd, Ord, Debug)]
pub struct Grade {
    value: u8,
    ghost within: { value ≤ 15 },
}
