// An empty card, and one line more.
ghost use Rattle.std.specs.Prelude.{◌≡◌, false, [], is_ok};
ghost use Rattle.refusals.specs.Answer.{answer_of};
ghost use Rattle.tariffs.specs.Card.{lines_of, add_answer, lines_after};
ghost use Rattle.tariffs.specs.Refusal.{card_told};

use crate::{CardRefusal, Line, MAX_MACHINES, RateCard};

impl RateCard {
    // A card without lines.
    pub fn new() -> RateCard
        ensures { lines_of result ≡ [] }
    {
        let unused = Line { speed: 1, rate: 0 };
        RateCard {
            lines: [unused; MAX_MACHINES],
            count: 0,
        }
    }

    // Adds a line at the end, and returns its machine number.
    pub fn add(&mut self, speed: u32, rate: u32) -> Result<usize, CardRefusal>
        ensures answer { answer_of card_told result ≡ add_answer (lines_of self.old) speed rate }
        ensures after { lines_of self.new ≡ lines_after (lines_of self.old) speed rate }
        ensures refused { is_ok result ≡ false → self.new ≡ self.old }
    {
        let machine = self.count;
        if machine >= MAX_MACHINES {
            return Err(CardRefusal::Full);
        }
        self.lines[machine] = Line::new(speed, rate).ok_or(CardRefusal::OutOfRange)?;
        self.count = machine + 1;
        Ok(machine)
    }
}
