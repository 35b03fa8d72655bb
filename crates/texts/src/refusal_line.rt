// The line that tells of a refusal.
ghost use Rattle.texts.specs.Line.{line};
ghost use Rattle.texts.specs.RefusalLine.{refusal_words};
ghost use Rattle.texts.specs.Write.{Writes, FitsIn};

use crate::{TooShort, Word, write_line};
use refusals::Refusal;

// Writes `refused`, the refusal's number and the value that it carries, if any, as a line at the start of the
// memory, and returns how many bytes that took.
pub fn write_refusal<R: Refusal>(refusal: &R, memory: &mut [u8]) -> Result<usize, TooShort>
    ensures text { Writes (line (refusal_words (R.told refusal.now))) memory.old memory.new result }
    ensures fits { FitsIn 33 memory.old result }
{
    let number = Word::Number(u64::from(refusal.number()));
    match refusal.carried() {
        Some(value) => write_line(&[Word::Refused, number, Word::Number(value as u64)], memory),
        None => write_line(&[Word::Refused, number], memory),
    }
}
