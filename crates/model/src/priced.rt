// Sheets under tariffs.
use sheets::Sheet;

// A sheet, and the tariff that quotes its tasks.
#[derive_where(Clone, Copy)]
pub struct PricedSheet<'a, T> {
    pub sheet: &'a Sheet,
    pub tariff: &'a T,
}
