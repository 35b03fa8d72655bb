// The rows of a quote table.

// A row as the caller wrote it: any numbers.
#[derive(Clone, Copy, PartialEq, Eq, Debug)]
pub struct Row {
    pub machine: u32,
    pub work: u32,
    pub minutes: u32,
    pub grade: u32,
}
