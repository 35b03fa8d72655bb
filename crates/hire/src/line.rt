// The line that tells of a quote.
ghost use Rattle.texts.specs.Line.{line};
ghost use Rattle.texts.specs.Write.{Writes, FitsIn};
ghost use Rattle.hire.specs.QuoteLine.{quote_words};

use costs::Cents;
use tariffs::Tariff;
use texts::{TooShort, Word, write_line};

// Writes the machine's number, its minutes and its cents, or `none` in their place, as a line at the start of the
// memory, and returns how many bytes that took.
pub fn write_quote<T: Tariff<Cost = Cents>>(
    tariff: &T,
    machine: usize,
    work: u32,
    memory: &mut [u8],
) -> Result<usize, TooShort>
    ensures text { let meaning = T.Tariff.meaning tariff.now in
        let words = quote_words machine (meaning.quote machine work) in
        Writes (line words) memory.old memory.new result }
    ensures fits { FitsIn 63 memory.old result }
{
    let number = Word::Number(machine as u64);
    match tariff.quote(machine, work) {
        Some(quote) => {
            let minutes = Word::Number(u64::from(quote.minutes));
            let cents = Word::Number(quote.cost.amount());
            write_line(&[number, minutes, cents], memory)
        }
        None => write_line(&[number, Word::NoQuote], memory),
    }
}
