// The groups of seven bits of which a number's bytes are made.
ghost use Rattle.std.specs.Prelude.{◌≡◌, ◌+◌, ◌*◌, ◌%◌, ◌^◌, ◌<◌, ◌≤◌, Ok, Err};
ghost use Rattle.numbers.specs.Number.{continues};
ghost use Rattle.numbers.specs.Reader.{input_of};
ghost use Rattle.numbers.specs.Fault.{Taken, Faulty, refusal_at};

use crate::{NumberRefusal, Reader};

const CONTINUES: u8 = 0x80;

const GROUP: u8 = 0x7F;

// Of the five bytes of the longest number all but one.
pub(crate) const MORE_BYTES: u32 = 4;

// The fifth byte has the four highest bits.
const MAX_FIFTH: u8 = 0x0F;

// Why no number stands at the start of some bytes.
#[derive(Clone, Copy)]
pub(crate) enum Fault {
    EndsEarly,
    Misspelt,
}

impl Fault {
    // The refusal of a number that begins at a place.
    pub(crate) fn at(self, place: usize) -> NumberRefusal
        ensures { result ≡ refusal_at self place }
    {
        match self {
            Fault::EndsEarly => NumberRefusal::EndsEarly(place),
            Fault::Misspelt => NumberRefusal::Misspelt(place),
        }
    }
}

fn continues(byte: u8) -> bool
    ensures { result ≡ continues byte }
{
    byte & CONTINUES != 0
}

// The number of the group in a byte and the groups above it.
fn joined(high: u32, byte: u8) -> u32
    requires { high < 2 ^ 25 }
    ensures { result ≡ high * 128 + byte % 128 }
{
    high << 7 | u32::from(byte & GROUP)
}

// The byte of the lowest group, with more to follow.
pub(crate) fn low_group(n: u32) -> u8
    ensures { result ≡ 128 + n % 128 }
{
    CONTINUES | (n & u32::from(GROUP)) as u8
}

// The number at the start of what is left, in at most so many bytes more than one, and what is left behind it. The place
// is counted along, byte by byte.
pub(crate) fn take_groups(reader: Reader<'_>, more: u32) -> Result<(u32, Reader<'_>), Fault>
    requires { more ≤ 4 }
    ensures { elim result [
      | Ok found ↦ Taken more (input_of reader.entry) found.0 (input_of found.1)
      | Err fault ↦ Faulty fault more reader.entry.rest.now
    ] }
{
    let [first, rest @ ..] = reader.rest else {
        return Err(Fault::EndsEarly);
    };
    if more == 0 && *first > MAX_FIFTH {
        return Err(Fault::Misspelt);
    }
    let place = reader.place + 1;
    let behind = Reader { rest, place };
    if more == 0 || !continues(*first) {
        return Ok((u32::from(*first), behind));
    }
    let (high, behind) = take_groups(behind, more - 1)?;
    // In the shortest form the groups above one that continues are not all 0.
    if high == 0 {
        return Err(Fault::Misspelt);
    }
    Ok((joined(high, *first), behind))
}
