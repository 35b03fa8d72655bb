// Files and inputs, asked and compared.
use crate::case::{Case, is_by_the_book};
use crate::draw::{about, one_in};
use crate::files::damage::damaged;
use crate::files::key::{About, inputs_answer, key_answer, refusal_text};
use crate::files::reader::{KeyQuestion, read_file};
use crate::files::spelled::{push_card, push_question, sheet_file};
use crate::lent::{Memories, begins};
use crate::limit::Limit;
use crate::offered::Offered;
use crate::pair::Pair;
use crate::prices::{Prices, Terms};
use crate::report::{Outcome, Question, Report};
use crate::told::Told;
use keyanswer::{CompareRefusal, answer_key, compare_batches};
use keyfile::{read_sheet, write_sheet};
use std::alloc::{AllocError, Global};
use trials::Sequence;

// Memory of so many bytes for a text of this length: what the writing returns, and what is written.
fn fitting(text: &[u8], count: usize) -> (Result<usize, Told>, &[u8]) {
    if text.len() <= count {
        (Ok(text.len()), text)
    } else {
        (Err(Told::bare(8)), &[])
    }
}

// Writes the sheet, and compares. Returns its file.
fn ask_written(
    report: &mut Report,
    numbers: &mut Sequence,
    memories: &mut Memories,
    case: &Case,
) -> anyhow::Result<Vec<u8>> {
    let heap = report.rt.alloc();
    let file = sheet_file(heap, &case.book)?;
    let count = about(numbers, file.len());
    let before = memories.lend_bytes(heap, count)?;
    let answer = write_sheet(&case.sheet, &mut memories.bytes).map_err(Told::of);
    let (wanted, written) = fitting(&file, count);
    let same = answer == wanted && begins(&memories.bytes, &before, written);
    let refused = wanted.err();
    report.note(Question::Written, Outcome { same, refused })?;
    Ok(file)
}

// Reads a file to the place of another sheet, which stays there where the file is refused.
fn ask_read(report: &mut Report, bytes: &[u8], lent: &Case) -> anyhow::Result<()> {
    let mut sheet = lent.sheet;
    let answer = read_sheet(bytes, &mut sheet).map_err(Told::of);
    let outcome = match read_file(report.rt.alloc(), bytes)? {
        Ok(book) => Outcome {
            same: answer == Ok(()) && is_by_the_book(&sheet, &book),
            refused: None,
        },
        Err(told) => Outcome {
            same: answer == Err(told) && is_by_the_book(&sheet, &lent.book),
            refused: Some(told),
        },
    };
    report.note(Question::Read, outcome)
}

// Has an input answered, and compares the text.
pub(crate) fn ask_key(
    report: &mut Report,
    numbers: &mut Sequence,
    memories: &mut Memories,
    input: &[u8],
) -> anyhow::Result<()> {
    let heap = report.rt.alloc();
    let Some(wanted) = key_answer(heap, input)? else {
        report.left_out = report.left_out.saturating_add(1);
        return Ok(());
    };
    let (text, refused) = match wanted {
        Ok(text) => (text, None),
        Err(told) => (refusal_text(heap, told)?, Some(told)),
    };
    let count = about(numbers, text.len());
    let before = memories.lend_bytes(heap, count)?;
    let answer = answer_key(input, &mut memories.bytes).map_err(Told::of);
    let (wanted, written) = fitting(text.as_bytes(), count);
    let same = answer == wanted && begins(&memories.bytes, &before, written);
    let refused = wanted.err().or(refused);
    report.note(Question::Key, Outcome { same, refused })
}

fn told_about(refusal: CompareRefusal) -> (About, Told) {
    let about = match refusal {
        CompareRefusal::First(_) => About::First,
        CompareRefusal::Second(_) => About::Second,
        CompareRefusal::Memory(_) => About::Both,
    };
    (about, Told::of(refusal))
}

// Has two inputs compared, and compares the verdict.
fn ask_inputs(report: &mut Report, first: &[u8], second: &[u8]) -> anyhow::Result<()> {
    let Some(wanted) = inputs_answer(report.rt.alloc(), first, second)? else {
        report.left_out = report.left_out.saturating_add(1);
        return Ok(());
    };
    let answer = compare_batches(first, second).map_err(told_about);
    let same = answer == wanted;
    let verdict = wanted.map_err(|(_, told)| told);
    report.note_verdict(Question::Inputs, verdict, same)
}

// The card and the sheet file of an input, damaged or not.
fn offer_bytes(heap: Global, lines: &[Terms], file: &[u8]) -> Result<Vec<u8>, AllocError> {
    let mut bytes = Vec::new(heap);
    push_card(&mut bytes, lines)?;
    bytes.extend(file.iter().copied())?;
    Ok(bytes)
}

fn draw_question(numbers: &mut Sequence, pairs: &[Pair]) -> KeyQuestion {
    if one_in(numbers, 4) {
        KeyQuestion::Front
    } else {
        KeyQuestion::Within(Limit::drawn(numbers, pairs))
    }
}

// The bytes, damaged once in so many times.
fn perhaps_damaged(
    heap: Global,
    numbers: &mut Sequence,
    bytes: Vec<u8>,
    times: u32,
) -> Result<Vec<u8>, AllocError> {
    if one_in(numbers, times) {
        damaged(heap, numbers, &bytes)
    } else {
        Ok(bytes)
    }
}

// Has the sheet and its card answered from an input.
fn try_key(
    report: &mut Report,
    numbers: &mut Sequence,
    memories: &mut Memories,
    offer: &[u8],
    pairs: &[Pair],
) -> anyhow::Result<()> {
    let heap = report.rt.alloc();
    let mut input = offer.to_vec(heap)?;
    push_question(&mut input, draw_question(numbers, pairs))?;
    let input = perhaps_damaged(heap, numbers, input, 2)?;
    ask_key(report, numbers, memories, &input)
}

// Sends a sheet through files: written, read to the place of the other sheet, whole and damaged; under a card it is answered
// from an input with one of the limits about these pairs; and where both have cards, they are compared from inputs.
pub(crate) fn try_files(
    report: &mut Report,
    numbers: &mut Sequence,
    memories: &mut Memories,
    offered: (&Offered, &Offered),
    pairs: &[Pair],
) -> anyhow::Result<()> {
    let heap = report.rt.alloc();
    let (first, second) = offered;
    let file = ask_written(report, numbers, memories, &first.case)?;
    ask_read(report, &file, &second.case)?;
    ask_read(report, &damaged(heap, numbers, &file)?, &second.case)?;
    let Prices::Card(lines) = &first.prices else {
        return Ok(());
    };
    let offer = offer_bytes(heap, lines, &file)?;
    try_key(report, numbers, memories, &offer, pairs)?;
    let Prices::Card(others) = &second.prices else {
        return Ok(());
    };
    let other_file = ask_written(report, numbers, memories, &second.case)?;
    let other = offer_bytes(heap, others, &other_file)?;
    let offer = perhaps_damaged(heap, numbers, offer, 4)?;
    let other = perhaps_damaged(heap, numbers, other, 4)?;
    ask_inputs(report, &offer, &other)
}
