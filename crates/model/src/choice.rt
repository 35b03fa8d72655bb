// Choices.

// A machine chosen for a task, and what it costs.
#[derive(Clone, Copy, Drop, PartialEq, Eq, Debug)]
pub struct Choice<C> {
    pub machine: usize,
    pub cost: C,
}
