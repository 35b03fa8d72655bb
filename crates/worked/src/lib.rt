// Worked cases: what the definitions of the planner come to on small samples.
#![tactic(auto)]

mod cases;
mod samples;

pub use cases::printed_cases_hold;
pub use samples::{card_a, rows_g, sheet_x};
