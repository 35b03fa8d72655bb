// Rate cards read from a file.
ghost use Rattle.std.specs.Prelude.{◌≡◌};
ghost use Rattle.refusals.specs.Answer.{answer_of};
ghost use Rattle.numbers.specs.Input.{value_of, left_by};
ghost use Rattle.numbers.specs.Reader.{input_of};
ghost use Rattle.tariffs.specs.Card.{lines_of};
ghost use Rattle.keyfile.specs.Reading.{ReadAs, viewed};
ghost use Rattle.keyfile.specs.Refusal.{file_told};
ghost use Rattle.keyfile.specs.Card.{line_in, card_in};

use crate::FileRefusal;
use numbers::Reader;
use tariffs::RateCard;

fn read_line(reader: &mut Reader, card: &mut RateCard) -> Result<(), FileRefusal>
    ensures { ReadAs file_told (line_in (lines_of card.old) (input_of reader.old)) result (lines_of card.new) (input_of reader.new) }
{
    let place = reader.place();
    let speed = reader.number()?;
    let rate = reader.number()?;
    card.add(speed, rate)
        .map_err(|refusal| FileRefusal::Card { refusal, place })?;
    Ok(())
}

// Reads a card: the line count, then the speed and rate of each line.
#[tactic(auto, using(crate::proofs::OnReadings::repeated_more))]
pub fn read_card(reader: &mut Reader) -> Result<RateCard, FileRefusal>
    ensures answer { answer_of file_told (viewed lines_of result) ≡ value_of (card_in (input_of reader.old)) }
    ensures after { input_of reader.new ≡ left_by (card_in (input_of reader.old)) (input_of reader.old) }
{
    let mut ahead = *reader;
    let count = ahead.number()?;
    let mut card = RateCard::new();
    for _ in 0..count {
        read_line(&mut ahead, &mut card)?;
    }
    *reader = ahead;
    Ok(card)
}
