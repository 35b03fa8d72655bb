// The answer to an input, for C.
ghost use Rattle.std.specs.Prelude.{◌≡◌, ◌≤◌, length, take};
ghost use Rattle.texts.specs.Write.{write_answer, write_after};
ghost use Rattle.keyanswer.specs.Answer.{text_bytes, key_text};
ghost use Rattle.keyanswer.specs.Words.{TextTells};
ghost use Rattle.capi.specs.Status.{status_of, number_after};

use crate::status::DONE;
use keyanswer::answer_key;
use refusals::Refusal;

/// Writes the text of the answer to an input, and how many bytes that took (docs/RULES.md, "Calls for C"). Returns 0, or 8
/// where the memory is too short for the text, and then nothing is altered: every refusal of an input stands in its text.
#[unsafe(no_mangle)]
pub extern "C" fn vulzhedor_answer(input: &[u8], text: &mut [u8], written: &mut usize) -> u32
    ensures status { result ≡ status_of (write_answer (key_text input.now) text.old) }
    ensures after { text.new ≡ write_after (key_text input.now) text.old }
    ensures count { written.new ≡ number_after (write_answer (key_text input.now) text.old) written.old }
    ensures fits { text_bytes ≤ length text.old → result ≡ 0 }
    ensures words { result ≡ 0 → TextTells input.now (take written.new text.new) }
{
    match answer_key(input, text) {
        Ok(count) => {
            *written = count;
            DONE
        }
        Err(refusal) => u32::from(refusal.number()),
    }
}
