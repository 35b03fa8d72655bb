// Why a hire is refused.
ghost use Rattle.hire.specs.Refusal.{hire_told};

use refusals::Refusal;

// What is wrong with an argument. The work is argument 1, the first speed 2, the first rate 3, and so on.
#[derive(Clone, Copy, PartialEq, Eq, Debug)]
pub enum HireRefusal {
    // The work is out of range.
    Work,
    // There are more machines than a card has lines; the speed of the first too many is this argument.
    FullCard(usize),
    // A speed or a rate is out of range: this argument.
    OutOfRange(usize),
}

impl Refusal for HireRefusal {
    ghost told = { hire_told };

    fn number(&self) -> u8 {
        match self {
            HireRefusal::Work => 3,
            HireRefusal::FullCard(_) => 4,
            HireRefusal::OutOfRange(_) => 5,
        }
    }

    fn carried(&self) -> Option<usize> {
        match self {
            HireRefusal::Work => Some(1),
            HireRefusal::FullCard(argument) | HireRefusal::OutOfRange(argument) => Some(*argument),
        }
    }
}
