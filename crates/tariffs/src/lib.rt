// Tariffs: what each hired machine quotes for a work.
#![tactic(auto)]

mod card;
mod charge;
mod line;
mod never;
mod plain;
mod quote;
mod refusal;
mod row;
mod table;
mod tariff;

pub use card::RateCard;
pub use charge::charge_for;
pub use line::Line;
pub use never::NeverQuotes;
pub use quote::{MAX_MINUTES, Quote};
pub use refusal::{CardRefusal, RowRefusal};
pub use row::Row;
pub use table::QuoteTable;
pub use table::check::check_rows;
pub use tariff::{MAX_MACHINES, Tariff};
