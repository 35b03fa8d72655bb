// The whole input of a key.
ghost use Rattle.std.specs.Prelude.{◌≡◌, ◌≤◌, length, IfOk, OnOk};
ghost use Rattle.refusals.specs.Answer.{answer_of};
ghost use Rattle.numbers.specs.Input.{value_of};
ghost use Rattle.keyfile.specs.Reading.{viewed};
ghost use Rattle.keyfile.specs.Refusal.{file_told};
ghost use Rattle.keyfile.specs.Works.{KnownByItsFile};
ghost use Rattle.keyinput.specs.Deciding.{FirstBytesDecide};
ghost use Rattle.keyinput.specs.Input.{asked_by, key_in};
ghost use Rattle.keyinput.specs.Spelled.{spelled_input, longest_input, SpelledInputsAreRead};

use crate::batch::take_batch;
use crate::{Batch, Question, read_question};
use keyfile::{FileRefusal, check_end};
use numbers::Reader;

#[derive(Clone, Copy)]
pub struct KeyInput {
    pub batch: Batch,
    pub question: Question,
}

/// Reads a card, a sheet and a question, with nothing behind them (docs/RULES.md, "The input of a key"). Refused with the
/// number and the place of what is not read, 13 where bytes stand behind; of more than 1,024 bytes the first 1,024 decide.
#[tactic(auto, using(crate::proofs::OnSpelled::spelled_inputs_are_read, crate::proofs::OnDeciding::first_bytes_decide_input))]
pub fn read_input(bytes: &[u8]) -> Result<KeyInput, FileRefusal>
    ensures answer { answer_of file_told (viewed asked_by result) ≡ value_of (key_in bytes.now) }
    ensures spelt { IfOk result (λ key. bytes.now ≡ spelled_input (asked_by key)) }
    ensures short { OnOk result (length bytes.now ≤ longest_input) }
    ensures known { IfOk result (λ key. KnownByItsFile key.batch.sheet) }
    ensures spelled_inputs_read { SpelledInputsAreRead }
    ensures decided { FirstBytesDecide key_in }
{
    let mut reader = Reader::new(bytes);
    let batch = take_batch(&mut reader)?;
    let question = read_question(&mut reader)?;
    check_end(&reader)?;
    Ok(KeyInput { batch, question })
}
