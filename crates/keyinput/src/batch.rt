// A sheet with the card that it is worked by.
ghost use Rattle.std.specs.Prelude.{◌≡◌, ◌≤◌, length, IfOk, OnOk};
ghost use Rattle.refusals.specs.Answer.{answer_of};
ghost use Rattle.numbers.specs.Input.{value_of, left_by};
ghost use Rattle.numbers.specs.Reader.{input_of};
ghost use Rattle.keyfile.specs.Reading.{viewed};
ghost use Rattle.keyfile.specs.Refusal.{file_told};
ghost use Rattle.keyfile.specs.Works.{KnownByItsFile};
ghost use Rattle.keyinput.specs.Batch.{batch_of, offer_in, batch_in};
ghost use Rattle.keyinput.specs.Deciding.{FirstBytesDecide};
ghost use Rattle.keyinput.specs.Spelled.{spelled_batch, longest_batch, SpelledInputsAreRead};

use keyfile::{FileRefusal, check_end, read_card, read_sheet_from};
use numbers::Reader;
use sheets::Sheet;
use tariffs::RateCard;

#[derive(Clone, Copy)]
pub struct Batch {
    pub card: RateCard,
    pub sheet: Sheet,
}

// Reads a card and a sheet, and leaves what stands behind them.
pub(crate) fn take_batch(reader: &mut Reader) -> Result<Batch, FileRefusal>
    ensures answer { answer_of file_told (viewed batch_of result) ≡ value_of (offer_in (input_of reader.old)) }
    ensures after { OnOk result (input_of reader.new ≡ left_by (offer_in (input_of reader.old)) (input_of reader.old)) }
    ensures known { IfOk result (λ batch. KnownByItsFile batch.sheet) }
{
    let card = read_card(reader)?;
    let mut sheet = Sheet::open();
    read_sheet_from(reader, &mut sheet)?;
    Ok(Batch { card, sheet })
}

/// Reads a card and a sheet, with nothing behind them (docs/RULES.md, "The input of a key"). Refused with the number and
/// the place of what is not read, 13 where bytes stand behind; of more than 1,024 bytes the first 1,024 decide.
#[tactic(auto, using(crate::proofs::OnSpelled::spelled_inputs_are_read, crate::proofs::OnDeciding::first_bytes_decide_batch))]
pub fn read_batch(bytes: &[u8]) -> Result<Batch, FileRefusal>
    ensures answer { answer_of file_told (viewed batch_of result) ≡ value_of (batch_in bytes.now) }
    ensures spelt { IfOk result (λ batch. bytes.now ≡ spelled_batch (batch_of batch)) }
    ensures short { OnOk result (length bytes.now ≤ longest_batch) }
    ensures known { IfOk result (λ batch. KnownByItsFile batch.sheet) }
    ensures spelled_inputs_read { SpelledInputsAreRead }
    ensures decided { FirstBytesDecide batch_in }
{
    let mut reader = Reader::new(bytes);
    let batch = take_batch(&mut reader)?;
    check_end(&reader)?;
    Ok(batch)
}
