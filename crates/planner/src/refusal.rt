// Why a question is refused.
ghost use Rattle.std.specs.Prelude.{◌≡◌};
ghost use Rattle.planner.specs.declared.refusal.QuestionRefusal.TheVariants.{TooFewCells};
ghost use Rattle.planner.specs.Refusal.{question_told};

use cells::TooFewCells;
use refusals::Refusal;

#[derive(Clone, Copy, PartialEq, Eq, Debug)]
pub enum QuestionRefusal {
    // There are fewer cells than the question needs.
    TooFewCells,
    // The points or the plan are too short for the result.
    TooShort,
    // No machine quotes this standing task, the lowest such.
    Unquoted(usize),
    // No assignment is within the limit.
    NoneWithin,
}

impl From<TooFewCells> for QuestionRefusal {
    ghost from_gives = { λ _ refusal. refusal ≡ TooFewCells };

    fn from(_: TooFewCells) -> Self {
        Self::TooFewCells
    }
}

impl Refusal for QuestionRefusal {
    ghost told = { question_told };

    fn number(&self) -> u8 {
        match self {
            QuestionRefusal::TooFewCells => 7,
            QuestionRefusal::TooShort => 8,
            QuestionRefusal::Unquoted(_) => 9,
            QuestionRefusal::NoneWithin => 10,
        }
    }

    fn carried(&self) -> Option<usize> {
        match self {
            QuestionRefusal::Unquoted(task) => Some(*task),
            _ => None,
        }
    }
}
