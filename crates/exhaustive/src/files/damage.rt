// Bytes that are changed, cut or added.
use crate::draw::{one_in, place};
use crate::files::spelled::push_number;
use std::alloc::{AllocError, Global};
use trials::Sequence;

// Numbers just past what a count, a line or a work may be, and the greatest.
const PAST_LIMITS: [u32; 9] = [0, 3, 17, 33, 257, 10_001, 1_000_001, 1 << 28, u32::MAX];

// More bytes than are read of an input.
const MANY_BYTES: u32 = 1_200;

fn byte(numbers: &mut Sequence) -> u8 {
    (numbers.next(0, 256) & 0xFF) as u8
}

// Bytes in place of one: another byte, one with a bit turned, a longer form, or a number past a limit.
fn push_instead(numbers: &mut Sequence, bytes: &mut Vec<u8>, former: u8) -> Result<(), AllocError> {
    match numbers.next(0, 5) {
        0 => bytes.push(byte(numbers))?,
        1 => bytes.push(former ^ (1 << (numbers.next(0, 8) % 8)))?,
        2 => {
            bytes.push(former | 0x80)?;
            bytes.push(0)?;
        }
        3 => {
            let past = place(numbers, PAST_LIMITS.len());
            push_number(bytes, PAST_LIMITS.get(past).copied().unwrap_or(0))?;
        }
        _ => push_number(bytes, u32::from(former).saturating_add(1))?,
    }
    Ok(())
}

fn push_more(numbers: &mut Sequence, bytes: &mut Vec<u8>) -> Result<(), AllocError> {
    let most = if one_in(numbers, 20) { MANY_BYTES } else { 3 };
    for _ in 0..numbers.next(1, most) {
        bytes.push(byte(numbers))?;
    }
    Ok(())
}

// The bytes with one changed or left out, cut at a place, or with others behind them.
pub(crate) fn damaged(
    heap: Global,
    numbers: &mut Sequence,
    bytes: &[u8],
) -> Result<Vec<u8>, AllocError> {
    let at = place(numbers, bytes.len());
    let (before, behind) = bytes.split_at(at.min(bytes.len()));
    let mut altered = Vec::new(heap);
    altered.extend(before.iter().copied())?;
    let Some((former, rest)) = behind.split_first() else {
        return Ok(altered);
    };
    match numbers.next(0, 6) {
        0 => {}
        1 => altered.extend(rest.iter().copied())?,
        2 => {
            altered.extend(behind.iter().copied())?;
            push_more(numbers, &mut altered)?;
        }
        _ => {
            push_instead(numbers, &mut altered, *former)?;
            altered.extend(rest.iter().copied())?;
        }
    }
    Ok(altered)
}
