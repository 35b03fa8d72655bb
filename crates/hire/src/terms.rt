// The terms of a machine.

// A speed, in units a minute, and a rate, in cents an hour, as the user gave them: any numbers.
#[derive(Clone, Copy, PartialEq, Eq, Debug)]
pub struct Terms {
    pub speed: u32,
    pub rate: u32,
}
