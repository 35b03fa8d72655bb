// The input of a key: a card, a sheet and a question; and a card with a sheet alone.
#![tactic(auto)]

mod batch;
mod input;
mod plain;
mod question;

pub use batch::{Batch, read_batch};
pub use input::{KeyInput, read_input};
pub use question::{Question, read_question};
