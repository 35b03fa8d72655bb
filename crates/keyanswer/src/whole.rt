// Answers and verdicts in memory that none of them is too long for.
ghost use Rattle.std.specs.Prelude.{◌≡◌, ◌++◌, length, drop};
ghost use Rattle.keyanswer.specs.Answer.{key_text};
ghost use Rattle.keyanswer.specs.Better.{better_heard, verdict_line};

use crate::{CompareRefusal, TEXT_BYTES, VERDICT_BYTES, answer_key, write_verdict};
use costs::Cents;
use model::Better;

/// Writes the text that answers an input at the start of the memory, and returns how many bytes that took, as
/// `answer_key` does (docs/RULES.md, "The input of a key"). It is never refused: no text is longer than this memory.
pub fn answer_to(input: &[u8], text: &mut [u8; TEXT_BYTES]) -> usize
    ensures count { result ≡ length (key_text input.now) }
    ensures text { text.new ≡ key_text input.now ++ drop (length (key_text input.now)) text.old }
{
    match answer_key(input, text) {
        Ok(count) => count,
        Err(_) => unreachable!(),
    }
}

/// Writes the line of a verdict at the start of the memory, and returns how many bytes that took, as `write_verdict` does.
/// It is never refused: no line is longer than this memory.
pub fn verdict_to(
    verdict: &Result<Option<Better<Cents>>, CompareRefusal>,
    text: &mut [u8; VERDICT_BYTES],
) -> usize
    ensures count { result ≡ length (verdict_line (better_heard verdict.now)) }
    ensures text { let line = verdict_line (better_heard verdict.now) in
        text.new ≡ line ++ drop (length line) text.old }
{
    match write_verdict(verdict, text) {
        Ok(count) => count,
        Err(_) => unreachable!(),
    }
}
