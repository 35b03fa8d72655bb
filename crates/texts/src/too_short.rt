// The refusal of a text that does not fit.
ghost use Rattle.texts.specs.TooShort.{too_short_told};

use refusals::Refusal;

// The memory is too short for the text.
#[derive(Clone, Copy, PartialEq, Eq, Debug)]
pub struct TooShort;

impl Refusal for TooShort {
    ghost told = { too_short_told };

    fn number(&self) -> u8 {
        8
    }

    fn carried(&self) -> Option<usize> {
        None
    }
}
