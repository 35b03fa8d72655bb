// The lines of an answer: pairs of length and cost, and the machines of a plan.
#![tactic(auto)]

mod line;
mod lines;
mod machine;
mod plain;
mod plan;
mod point;

pub use line::Line;
pub use lines::write_lines;
pub use machine::Assigned;
pub use plan::write_result;
