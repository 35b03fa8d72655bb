// Text in memory of the caller: numbers as decimal digits, and lines of words.
#![tactic(auto)]

mod digits;
mod line;
mod number;
mod plain;
mod refusal_line;
mod too_short;
mod word;

pub use digits::number_len;
pub use line::{line_room, write_line};
pub use number::{read_number, write_number};
pub use refusal_line::write_refusal;
pub use too_short::TooShort;
pub use word::Word;
