// The lines that answer a hire.
ghost use Rattle.std.specs.Prelude.{◌≤◌, length};
ghost use Rattle.tariffs.specs.Card.{lines_of};
ghost use Rattle.texts.specs.Put.{Put};
ghost use Rattle.hire.specs.Answer.{quote_lines, hire_text};

use crate::{Hire, Terms, read_hire, write_quote};
use tariffs::Tariff;
use texts::write_refusal;

/// No text of a hire is longer: a card has at most 32 lines, and the line of a quote has at most 63 bytes.
pub const HIRE_TEXT_BYTES: usize = 2_016;

// Writes the lines of all machines at the start of the memory, and returns how many bytes that took.
fn write_quotes(hire: &Hire, text: &mut [u8; HIRE_TEXT_BYTES]) -> usize
    ensures { Put text.old 0 (quote_lines (lines_of hire.now.card) hire.now.work) text.new result }
{
    let mut end = 0;
    for machine in 0..hire.card.machines() {
        end += write_quote(&hire.card, machine, hire.work, &mut text[end..]).unwrap();
    }
    end
}

/// Writes what the machines on these terms quote for a work, a line for each (its number, its minutes and its cents, or
/// `none` in their place); or, where an argument is refused, the line of that refusal, which carries the argument. Returns
/// how many bytes that took; the memory behind them stays as it is. RULES.md, "Program `charges`".
pub fn write_hire(work: u32, terms: &[Terms], text: &mut [u8; HIRE_TEXT_BYTES]) -> usize
    ensures written { Put text.old 0 (hire_text work terms.now) text.new result }
{
    match read_hire(work, terms) {
        Ok(hire) => write_quotes(&hire, text),
        Err(refusal) => write_refusal(&refusal, text).unwrap(),
    }
}
