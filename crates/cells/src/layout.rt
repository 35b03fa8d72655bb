// How cells stand in memory.
pub mod places;

// A row of cells for each stage and one behind the last, each as wide as the span and 1.
#[derive(Clone, Copy)]
pub struct Layout {
    pub stages: u32,
    pub width: u32,
}
