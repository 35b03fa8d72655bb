// The quote table.
ghost use Rattle.std.specs.Prelude.{◌≡◌};
ghost use Rattle.tariffs.specs.Rows.{rows_pass};

use crate::Row;

pub mod check;
pub mod tariff;

// The most rows over which a table quotes.
pub(crate) const MAX_ROWS: usize = 256;

// A table over rows of the caller. It knows whether they passed the check.
#[derive(Clone, Copy)]
pub struct QuoteTable<'a> {
    rows: &'a [Row],
    passed: bool,
    ghost checked: { passed ≡ rows_pass rows.now },
}
