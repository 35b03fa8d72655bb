// The files of the key: rate cards and sheets as numbers.
#![tactic(auto)]

mod card;
mod end;
mod plain;
mod refusal;
mod sheet;
mod writing;

pub use card::read_card;
pub use end::check_end;
pub use refusal::{FileRefusal, Layer};
pub use sheet::{read_sheet, read_sheet_from};
pub use writing::write_sheet;
