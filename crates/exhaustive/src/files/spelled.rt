// Numbers, cards, sheets and questions as bytes.
use crate::book::Book;
use crate::files::reader::KeyQuestion;
use crate::limit::Limit;
use crate::prices::Terms;
use std::alloc::{AllocError, Global};

// The groups of a number that are not its last: a number has at most five.
const FORMER_GROUPS: u32 = 4;

// Puts a number behind the bytes, seven bits to a byte, the lowest first.
pub(crate) fn push_number(bytes: &mut Vec<u8>, number: u32) -> Result<(), AllocError> {
    let mut left = number;
    for _ in 0..FORMER_GROUPS {
        if left >= 0x80 {
            bytes.push(0x80 | (left & 0x7F) as u8)?;
            left >>= 7;
        }
    }
    bytes.push((left & 0x7F) as u8)?;
    Ok(())
}

fn push_count(bytes: &mut Vec<u8>, count: usize) -> Result<(), AllocError> {
    push_number(bytes, u32::try_from(count).unwrap_or(u32::MAX))
}

pub(crate) fn push_card(bytes: &mut Vec<u8>, lines: &[Terms]) -> Result<(), AllocError> {
    push_count(bytes, lines.len())?;
    for line in lines {
        push_number(bytes, line.speed)?;
        push_number(bytes, line.rate)?;
    }
    Ok(())
}

fn push_stage(bytes: &mut Vec<u8>, book: &Book, stage: usize) -> Result<(), AllocError> {
    let standing = book.entries.iter().filter(|entry| entry.stands_in(stage));
    push_count(bytes, standing.count())?;
    for entry in &book.entries {
        if entry.stands_in(stage) {
            push_number(bytes, entry.work)?;
        }
    }
    Ok(())
}

// The file of a sheet: the standing tasks of each stage, in number order.
pub(crate) fn sheet_file(heap: Global, book: &Book) -> Result<Vec<u8>, AllocError> {
    let mut bytes = Vec::new(heap);
    push_count(&mut bytes, book.stages)?;
    for stage in 0..book.stages {
        push_stage(&mut bytes, book, stage)?;
    }
    Ok(bytes)
}

pub(crate) fn push_question(bytes: &mut Vec<u8>, question: KeyQuestion) -> Result<(), AllocError> {
    match question {
        KeyQuestion::Front => push_number(bytes, 0),
        KeyQuestion::Within(Limit::Budget(cost)) => {
            push_number(bytes, 1)?;
            push_number(bytes, u32::try_from(cost).unwrap_or(u32::MAX))
        }
        KeyQuestion::Within(Limit::Deadline(minutes)) => {
            push_number(bytes, 2)?;
            push_number(bytes, minutes)
        }
    }
}
