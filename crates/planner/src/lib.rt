// The planner: fronts, budgets, deadlines and plans of a sheet under a tariff, for every cost kind and every tariff.
#![tactic(auto)]

mod bargains;
mod better;
mod fronts;
mod limit;
mod limits;
mod plain;
mod plan;
mod refusal;
mod scan;

pub use bargains::same_bargains;
pub use better::better_bargain;
pub use fronts::front;
pub use limits::{budget, deadline};
pub use refusal::QuestionRefusal;
