// Why a tariff's calls are refused.
ghost use Rattle.tariffs.specs.Refusal.{card_told, row_told};

use crate::table::MAX_ROWS;
use refusals::Refusal;

// A line that a rate card does not take.
#[derive(Clone, Copy, PartialEq, Eq, Debug)]
pub enum CardRefusal {
    // The card has all the lines that it can hold.
    Full,
    // The speed or the rate is out of range.
    OutOfRange,
}

// Rows over which a quote table would quote nothing.
#[derive(Clone, Copy, PartialEq, Eq, Debug)]
pub enum RowRefusal {
    // The first row with a number out of range.
    Bad(usize),
    // All rows are good, and there are too many.
    TooMany,
}

impl Refusal for CardRefusal {
    ghost told = { card_told };

    fn number(&self) -> u8 {
        match self {
            CardRefusal::Full => 4,
            CardRefusal::OutOfRange => 5,
        }
    }

    fn carried(&self) -> Option<usize> {
        None
    }
}

impl Refusal for RowRefusal {
    ghost told = { row_told };

    fn number(&self) -> u8 {
        6
    }

    fn carried(&self) -> Option<usize> {
        match self {
            RowRefusal::Bad(row) => Some(*row),
            RowRefusal::TooMany => Some(MAX_ROWS),
        }
    }
}
