// The end of a file.
ghost use Rattle.std.specs.Prelude.{◌≡◌};
ghost use Rattle.refusals.specs.Answer.{answer_of};
ghost use Rattle.numbers.specs.Input.{value_of};
ghost use Rattle.numbers.specs.Reader.{input_of};
ghost use Rattle.keyfile.specs.Reading.{ended};
ghost use Rattle.keyfile.specs.Refusal.{file_told};

use crate::FileRefusal;
use numbers::Reader;

// Refuses bytes that are left at the end of a file.
pub fn check_end(reader: &Reader) -> Result<(), FileRefusal>
    ensures { answer_of file_told result ≡ value_of (ended tt (input_of reader.now)) }
{
    if reader.at_end() {
        Ok(())
    } else {
        Err(FileRefusal::Extra(reader.place()))
    }
}
