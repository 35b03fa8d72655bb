// The limits that a question may set.

// A greatest cost, or a greatest length in minutes.
#[derive(Clone, Copy)]
pub(crate) enum Limit<C> {
    Budget(C),
    Deadline(u32),
}
