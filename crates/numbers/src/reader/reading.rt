// What a reader tells and takes.
ghost use Rattle.std.specs.Prelude.{◌≡◌, length, IfOk, ◌==◌};
ghost use Rattle.refusals.specs.Answer.{answer_of};
ghost use Rattle.numbers.specs.Input.{input, value_of, left_by};
ghost use Rattle.numbers.specs.Number.{number_in};
ghost use Rattle.numbers.specs.Refusal.{number_told};
ghost use Rattle.numbers.specs.Reader.{input_of};
ghost use Rattle.numbers.specs.Spellings.{OneSpelling, SpellingsAreRead, OnlySpellingsAreRead, SpelledAt};

use crate::groups::{MORE_BYTES, take_groups};
use crate::{NumberRefusal, Reader};

impl<'a> Reader<'a> {
    // A reader at the start of an input.
    pub fn new(bytes: &'a [u8]) -> Reader<'a>
        ensures { input_of result ≡ input 0 bytes.now }
    {
        Reader {
            rest: bytes,
            place: 0,
        }
    }

    // The offset of the first byte that is left.
    pub fn place(&self) -> usize
        ensures { result ≡ (input_of self.now).place }
    {
        self.place
    }

    pub fn at_end(&self) -> bool
        ensures { result ≡ (length (input_of self.now).bytes == 0) }
    {
        self.rest.is_empty()
    }

    // Reads a number.
    pub fn number(&mut self) -> Result<u32, NumberRefusal>
        ensures answer { answer_of number_told result ≡ value_of (number_in (input_of self.old)) }
        ensures after { input_of self.new ≡ left_by (number_in (input_of self.old)) (input_of self.old) }
        ensures was_spelled { IfOk result (λ n. SpelledAt (input_of self.old) n (input_of self.new)) }
        ensures one_spelling { OneSpelling }
        ensures spellings_read { SpellingsAreRead }
        ensures only_spellings_read { OnlySpellingsAreRead }
    {
        let (n, behind) = take_groups(*self, MORE_BYTES).map_err(|fault| fault.at(self.place))?;
        *self = behind;
        Ok(n)
    }
}
