// Numbers as decimal text.
ghost use Rattle.std.specs.Prelude.{◌≡◌, ◌+◌, ◌-◌, ◌*◌, min, decimal};
ghost use Rattle.texts.specs.Number.{decimal_in};
ghost use Rattle.texts.specs.Write.{Writes};

use crate::TooShort;
use crate::digits::{number_len, put_digits};

// Writes a number in plain decimal digits at the start of the memory, and returns how many bytes that took.
pub fn write_number(n: u64, memory: &mut [u8]) -> Result<usize, TooShort>
    ensures { Writes (decimal n) memory.old memory.new result }
{
    if memory.len() < number_len(n) {
        return Err(TooShort);
    }
    Ok(put_digits(memory, 0, n))
}

// The value of a number followed by one more digit, held at the greatest.
fn with_digit(value: u32, byte: u8) -> u32
    ensures { result ≡ min (value * 10 + (byte - 48)) 4294967295 }
{
    value
        .saturating_mul(10)
        .saturating_add(u32::from(byte.saturating_sub(b'0')))
}

// The number that a text spells in plain decimal digits, held at the greatest of its type; none where the text is
// empty or holds another byte.
pub fn read_number(text: &[u8]) -> Option<u32>
    ensures { result ≡ decimal_in text.now }
{
    if text.is_empty() {
        return None;
    }
    text.iter().try_fold(0, |value, byte| {
        byte.is_ascii_digit().then(|| with_digit(value, *byte))
    })
}
