// The answer to the input of a key, from a reader to a writer.
ghost use Rattle.std.specs.Prelude.{OnOk, IfSome};
ghost use Rattle.std.specs.Io.KnownBytes.{Appends};
ghost use Rattle.keyanswer.specs.Answer.{key_text};

use crate::deciding::read_deciding;
use keyanswer::{INPUT_BYTES, TEXT_BYTES, answer_to};
use std::io;
use std::io::{Read, Write};

/// Reads the input of a key and writes the text that answers it, and nothing else (docs/RULES.md, "Program `keysheet`").
/// At most 1,024 bytes are read, since these decide. Nothing is allocated. Where the reader or the writer fails, so does it.
pub fn write_answer<R: Read + Drop, W: Write>(mut reader: R, writer: &mut W) -> io::Result<()>
    ensures { OnOk result (IfSome (R.remaining reader) (λ input.
        Appends (W.contents writer.old) (W.contents writer.new) (key_text input))) }
{
    let mut input = [0; INPUT_BYTES];
    let read = read_deciding(&mut reader, &mut input)?;
    let mut text = [0; TEXT_BYTES];
    let count = answer_to(&input[..read], &mut text);
    writer.write_all(&text[..count])
}
