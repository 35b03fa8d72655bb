// The calls of a sheet as values.

// The last three are questions. They leave the sheet alone whatever tariff, limit and memory they are asked with, and
// so carry nothing.
#[derive(Clone, Copy, PartialEq, Eq, Debug)]
pub enum Call {
    Stage,
    Task { stage: usize, work: u32 },
    Rework { task: usize, work: u32 },
    Strike { task: usize },
    Front,
    Budget,
    Deadline,
}
