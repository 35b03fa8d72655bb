// Inputs taken from readers, and what answers them given to writers.
#![tactic(auto)]

mod answers;
mod command;
mod deciding;
mod verdicts;

pub use answers::write_answer;
pub use command::same_bargains_command;
pub use verdicts::write_verdict_on;
