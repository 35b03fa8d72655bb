// The answer key: from the bytes of an input to the text of its answer, and from two inputs to a verdict.
#![tactic(auto)]

mod answer;
mod better;
mod compare;
mod memory;
mod plain;
mod priced;
mod refusal;
mod verdict;
mod whole;

pub use answer::{INPUT_BYTES, TEXT_BYTES, answer_key};
pub use better::{better_batch, better_of_batches};
pub use compare::compare_batches;
pub use memory::{MOST_CELLS, MOST_POINTS};
pub use refusal::CompareRefusal;
pub use verdict::{VERDICT_BYTES, exit_status, write_verdict};
pub use whole::{answer_to, verdict_to};
