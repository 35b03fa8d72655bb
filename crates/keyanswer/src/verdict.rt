// The line of a verdict on two inputs, and the exit status that tells it.
ghost use Rattle.std.specs.Prelude.{◌≡◌, ◌≤◌, ◌∷◌, length};
ghost use Rattle.texts.specs.Line.{line, word_text};
ghost use Rattle.texts.specs.RefusalLine.{number_words};
ghost use Rattle.texts.specs.Write.{Writes, FitsIn};
ghost use Rattle.keyanswer.specs.Better.{better_heard, better_words, pair_words, refused_words, verdict_line, verdict_status};
ghost use Rattle.keyanswer.specs.Compare.{refused_at};
ghost use Rattle.keyanswer.specs.Refusal.{compare_told, which_input};
ghost use Rattle.keyanswer.specs.declared.verdict.TheConstants.{VERDICT_BYTES};

use crate::CompareRefusal;
use costs::Cents;
use model::{Better, Point};
use refusals::Refusal;
use texts::{TooShort, Word, write_line, write_refusal};

/// No line of a verdict is longer.
pub const VERDICT_BYTES: usize = 40;

fn write_pair(sheet: Word, pair: &Point<Cents>, text: &mut [u8]) -> Result<usize, TooShort>
    requires { length (word_text sheet) ≤ 6 }
    ensures text { let words = sheet ∷ pair_words pair.now in
        Writes (line words) text.old text.new result }
    ensures fits { FitsIn VERDICT_BYTES text.old result }
{
    let length = Word::Number(u64::from(pair.length));
    write_line(&[sheet, length, Word::Number(pair.cost.amount())], text)
}

fn write_better(better: &Option<Better<Cents>>, text: &mut [u8]) -> Result<usize, TooShort>
    ensures text { Writes (line (better_words better.now)) text.old text.new result }
    ensures fits { FitsIn VERDICT_BYTES text.old result }
{
    match better {
        None => write_line(&[Word::Same], text),
        Some(Better::First(pair)) => write_pair(Word::First, pair, text),
        Some(Better::Second(pair)) => write_pair(Word::Second, pair, text),
    }
}

// Writes the refusal of one input.
fn write_about(input: Word, refusal: &CompareRefusal, text: &mut [u8]) -> Result<usize, TooShort>
    requires { length (word_text input) ≤ 6 }
    ensures text { let words = Word.Refused ∷ (input ∷ number_words (compare_told refusal.now)) in
        Writes (line words) text.old text.new result }
    ensures fits { FitsIn VERDICT_BYTES text.old result }
{
    let number = Word::Number(u64::from(refusal.number()));
    match refusal.carried() {
        Some(value) => write_line(
            &[Word::Refused, input, number, Word::Number(value as u64)],
            text,
        ),
        None => write_line(&[Word::Refused, input, number], text),
    }
}

fn write_refused(refusal: &CompareRefusal, text: &mut [u8]) -> Result<usize, TooShort>
    ensures text { let at = refused_at (which_input refusal.now) (compare_told refusal.now) in
        Writes (line (refused_words at)) text.old text.new result }
    ensures fits { FitsIn VERDICT_BYTES text.old result }
{
    match refusal {
        CompareRefusal::First(_) => write_about(Word::First, refusal, text),
        CompareRefusal::Second(_) => write_about(Word::Second, refusal, text),
        CompareRefusal::Memory(_) => write_refusal(refusal, text),
    }
}

/// Writes the line of a verdict, what `better_batch` answered, at the start of the memory, and returns how many bytes that
/// took (docs/RULES.md, "Program `samebargains`"). `VERDICT_BYTES` bytes always suffice.
///
/// # Errors
///
/// `TooShort` where the line does not fit, and then nothing is altered.
pub fn write_verdict(
    verdict: &Result<Option<Better<Cents>>, CompareRefusal>,
    text: &mut [u8],
) -> Result<usize, TooShort>
    ensures text { Writes (verdict_line (better_heard verdict.now)) text.old text.new result }
    ensures fits { FitsIn VERDICT_BYTES text.old result }
{
    match verdict {
        Ok(better) => write_better(better, text),
        Err(refusal) => write_refused(refusal, text),
    }
}

/// The exit status that tells a verdict as `cmp` does: 0 where both offer the same bargains, 1 where one has the better
/// bargain, 2 where it is refused.
pub fn exit_status(verdict: &Result<Option<Better<Cents>>, CompareRefusal>) -> u8
    ensures { result ≡ verdict_status (better_heard verdict.now) }
{
    match verdict {
        Ok(None) => 0,
        Ok(Some(_)) => 1,
        Err(_) => 2,
    }
}
