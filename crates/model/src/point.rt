// Points.

// A length in whole minutes, and a cost.
#[derive(Clone, Copy, Drop, PartialEq, Eq, Debug)]
pub struct Point<C> {
    pub length: u32,
    pub cost: C,
}
