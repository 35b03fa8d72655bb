// What the programs share that try the planner on many sheets.
#![tactic(auto)]

mod amount;
mod sequence;

pub use amount::Amount;
pub use sequence::Sequence;
