// Bytes and decimal digits put into memory that is known to hold them.
ghost use Rattle.std.specs.Prelude.{◌≡◌, ◌+◌, ◌<◌, ◌≤◌, [], ◌∷◌, length, decimal};
ghost use Rattle.texts.specs.Put.{Put};

// How many decimal digits a number has.
pub fn number_len(n: u64) -> usize
    ensures value { result ≡ length (decimal n) }
    ensures few { result ≤ 20 }
{
    if n < 10 { 1 } else { number_len(n / 10) + 1 }
}

pub(crate) fn put_byte(memory: &mut [u8], at: usize, byte: u8) -> usize
    requires { at < length memory.old }
    ensures { Put memory.old at (byte ∷ []) memory.new result }
{
    memory[at] = byte;
    at + 1
}

// Puts the digits of a number at a place, and returns the place behind them.
pub(crate) fn put_digits(memory: &mut [u8], at: usize, n: u64) -> usize
    requires { at + length (decimal n) ≤ length memory.old }
    ensures { Put memory.old at (decimal n) memory.new result }
{
    if n < 10 {
        return put_byte(memory, at, b'0' + n as u8);
    }
    let end = put_digits(memory, at, n / 10);
    put_byte(memory, end, b'0' + (n % 10) as u8)
}
