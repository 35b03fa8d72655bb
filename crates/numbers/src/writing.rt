// Numbers written into memory of the caller.
ghost use Rattle.std.specs.Prelude.{◌≡◌, ◌+◌, ◌<◌, ◌≤◌, true, length, is_err};
ghost use Rattle.texts.specs.Put.{Put};
ghost use Rattle.texts.specs.Write.{Writes};
ghost use Rattle.numbers.specs.Number.{groups, limit, spelled};
ghost use Rattle.texts.specs.Putting.{Puts};

use crate::groups::{MORE_BYTES, low_group};
use texts::TooShort;

fn groups_len(n: u32, more: u32) -> usize
    requires { more ≤ 4 }
    ensures value { result ≡ length (groups more n) }
    ensures few { result ≤ more + 1 }
{
    let high = n >> 7;
    if more == 0 || high == 0 {
        1
    } else {
        groups_len(high, more - 1) + 1
    }
}

// How many bytes a number takes.
pub fn number_len(n: u32) -> usize
    ensures value { result ≡ length (spelled n) }
    ensures few { result ≤ 5 }
{
    groups_len(n, MORE_BYTES)
}

// Puts the groups of a number at a place, and returns the place behind them.
fn put_groups(memory: &mut [u8], at: usize, n: u32, more: u32) -> usize
    requires { (more ≤ 4) × (n < limit more) × (at + length (groups more n) ≤ length memory.old) }
    ensures { Put memory.old at (groups more n) memory.new result }
{
    let high = n >> 7;
    if more == 0 || high == 0 {
        memory[at] = n as u8;
        return at + 1;
    }
    memory[at] = low_group(n);
    put_groups(memory, at + 1, high, more - 1)
}

// Puts a number at a place of the memory, and returns the place behind it.
pub fn put_number(n: u32, memory: &mut [u8], at: usize) -> Result<usize, TooShort>
    ensures put { Puts memory.old at (spelled n) memory.new result }
    ensures refused_alters_nothing { is_err result ≡ true → memory.new ≡ memory.old }
{
    let room = memory.len().checked_sub(at).ok_or(TooShort)?;
    if room < number_len(n) {
        return Err(TooShort);
    }
    Ok(put_groups(memory, at, n, MORE_BYTES))
}

// Writes a number at the start of the memory, and returns how many bytes that took.
pub fn write_number(n: u32, memory: &mut [u8]) -> Result<usize, TooShort>
    ensures { Writes (spelled n) memory.old memory.new result }
{
    put_number(n, memory, 0)
}
