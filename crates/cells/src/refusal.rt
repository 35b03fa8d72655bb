// The refusal of too little memory for the cells.
ghost use Rattle.cells.specs.TooFew.{too_few_told};

use refusals::Refusal;

// There are fewer cells than needed.
#[derive(Clone, Copy, PartialEq, Eq, Debug)]
pub struct TooFewCells;

impl Refusal for TooFewCells {
    ghost told = { too_few_told };

    fn number(&self) -> u8 {
        7
    }

    fn carried(&self) -> Option<usize> {
        None
    }
}
