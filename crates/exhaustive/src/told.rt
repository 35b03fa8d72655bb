// What a refused call tells.
use refusals::Refusal;

// The number of a refusal, and the value that it carries, if any.
#[derive(Clone, Copy, Drop, PartialEq, Eq, Debug)]
pub(crate) struct Told {
    pub(crate) number: u8,
    pub(crate) carried: Option<usize>,
}

impl Told {
    pub(crate) fn bare(number: u8) -> Told {
        Told {
            number,
            carried: None,
        }
    }

    pub(crate) fn carrying(number: u8, value: usize) -> Told {
        Told {
            number,
            carried: Some(value),
        }
    }

    pub(crate) fn of<R: Refusal + Copy>(refusal: R) -> Told {
        Told {
            number: refusal.number(),
            carried: refusal.carried(),
        }
    }
}
