// One hire, from plain numbers to the lines that tell what each machine quotes for it.
#![tactic(auto)]

mod answer;
mod hire;
mod line;
mod plain;
mod refusal;
mod terms;

pub use answer::{HIRE_TEXT_BYTES, write_hire};
pub use hire::{Hire, read_hire};
pub use line::write_quote;
pub use refusal::HireRefusal;
pub use terms::Terms;
