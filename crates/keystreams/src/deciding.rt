// The bytes of an input that decide.
ghost use Rattle.std.specs.Prelude.{◌≡◌, ◌≤◌, take, IfOk, IfSome};
ghost use Rattle.std.specs.Io.{ReadsAtMost};
ghost use Rattle.std.specs.Io.KnownBytes.{Consumes, ReadConsumes};
ghost use Rattle.keyanswer.specs.Answer.{deciding_bytes};

use keyanswer::INPUT_BYTES;
use std::io;
use std::io::{ErrorKind, Read};

// One read, tried again where a signal interrupts it.
fn read_some<R: Read>(reader: &mut R, buffer: &mut [u8]) -> io::Result<usize>
    ensures bound { ReadsAtMost result buffer.new }
    ensures bytes { ReadConsumes
        (R.remaining reader.old) (R.remaining reader.new) result buffer.new }
{
    for _ in 0..u64::MAX {
        match reader.read(buffer) {
            Ok(more) => return Ok(more),
            Err(error) if error.kind() == ErrorKind::Interrupted => {}
            Err(error) => return Err(error),
        }
    }
    Err(io::Error::from(ErrorKind::Interrupted))
}

// Reads the bytes of an input that decide, and no others, so that an endless input ends too. Returns how many there are,
// which stand at the start of the buffer.
pub(crate) fn read_deciding<R: Read>(
    reader: &mut R,
    buffer: &mut [u8; INPUT_BYTES],
) -> io::Result<usize>
    ensures most { IfOk result (λ count. count ≤ deciding_bytes) }
    ensures bytes { IfOk result (λ count.
        IfSome (R.remaining reader.old) (λ bytes. take count buffer.new ≡ take deciding_bytes bytes)) }
    ensures no_others { IfOk result (λ count.
        Consumes (R.remaining reader.old) (R.remaining reader.new) (take count buffer.new)) }
{
    let mut count = 0;
    while count < INPUT_BYTES {
        let more = read_some(reader, &mut buffer[count..])?;
        if more == 0 {
            return Ok(count);
        }
        count += more;
    }
    Ok(INPUT_BYTES)
}
