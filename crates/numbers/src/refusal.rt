// Why a number is not read.
ghost use Rattle.numbers.specs.Refusal.{number_told};

use refusals::Refusal;

// Each carries the place of the number's first byte.
#[derive(Clone, Copy, PartialEq, Eq, Debug)]
pub enum NumberRefusal {
    // the bytes end where a byte of the number is due
    EndsEarly(usize),
    // a fifth byte above 0x0F, or a longer form ending in 0
    Misspelt(usize),
}

impl Refusal for NumberRefusal {
    ghost told = { number_told };

    fn number(&self) -> u8 {
        match self {
            NumberRefusal::EndsEarly(_) => 11,
            NumberRefusal::Misspelt(_) => 12,
        }
    }

    fn carried(&self) -> Option<usize> {
        match self {
            NumberRefusal::EndsEarly(place) | NumberRefusal::Misspelt(place) => Some(*place),
        }
    }
}
