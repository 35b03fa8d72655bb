// Costs: the kinds of cost in which machines are charged, and their texts.
#![tactic(auto)]

mod cents;
mod cost;
mod grade;
mod plain;
mod written;

pub use cents::Cents;
pub use cost::Cost;
pub use grade::Grade;
pub use written::WrittenCost;
