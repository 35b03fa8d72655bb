// The sheet of a staged batch: a fixed table of stages and tasks, the calls that alter it, and its history of calls.
#![tactic(auto)]

mod book;
mod call;
mod history;
mod plain;
mod reading;
mod refusal;
mod sheet;
mod task;

pub use call::Call;
pub use refusal::SheetRefusal;
pub use sheet::Sheet;
pub use task::{MAX_STAGES, MAX_TASKS, Task};
