// File numbers: unsigned LEB128 in its shortest form, read byte by byte and written into memory of the caller.
#![tactic(auto)]

mod groups;
mod plain;
mod reader;
mod refusal;
mod writing;

pub use reader::Reader;
pub use refusal::NumberRefusal;
pub use writing::{number_len, put_number, write_number};
