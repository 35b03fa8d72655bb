// Why two inputs are not compared.
ghost use Rattle.keyanswer.specs.Refusal.{compare_told};

use keyfile::FileRefusal;
use planner::QuestionRefusal;
use refusals::Refusal;

#[derive(Clone, Copy, PartialEq, Eq, Debug)]
pub enum CompareRefusal {
    // the first input is not read
    First(FileRefusal),
    // the second is not
    Second(FileRefusal),
    // the fronts need more memory than there is
    Memory(QuestionRefusal),
}

impl Refusal for CompareRefusal {
    ghost told = { compare_told };

    fn number(&self) -> u8 {
        match self {
            CompareRefusal::First(refusal) | CompareRefusal::Second(refusal) => refusal.number(),
            CompareRefusal::Memory(refusal) => refusal.number(),
        }
    }

    fn carried(&self) -> Option<usize> {
        match self {
            CompareRefusal::First(refusal) | CompareRefusal::Second(refusal) => refusal.carried(),
            CompareRefusal::Memory(refusal) => refusal.carried(),
        }
    }
}
