// What an input has to be answered, and two inputs that are compared.
use crate::answers::Answers;
use crate::batch::Batch;
use crate::files::reader::{KeyQuestion, ReadBatch, read_key, read_offer};
use crate::lent::Sizes;
use crate::limit::Limit;
use crate::questions::{Compared, plan_wanted};
use crate::told::Told;
use std::alloc::{AllocError, Global};
use std::fmt::Write;

// The bytes of an input that decide.
const DECIDING_BYTES: usize = 1_024;

// The memory that the answer to an input has.
const KEY_SIZES: Sizes = Sizes {
    cells: 4_096,
    points: 4_096,
    second_points: 4_096,
    plan: 256,
};

// The input that a refused comparison is about.
#[derive(Clone, Copy, Drop, PartialEq, Eq, Debug)]
pub(crate) enum About {
    First,
    Second,
    Both,
}

fn front_text(heap: Global, answers: &Answers) -> Result<String, AllocError> {
    let mut text = String::new(heap);
    for pair in &answers.front {
        let (length, cost) = (pair.length, pair.cost);
        writeln!(text, "{length} {cost}")?;
    }
    Ok(text)
}

fn limit_text(
    heap: Global,
    answers: &Answers,
    limit: Limit,
) -> Result<Result<String, Told>, AllocError> {
    let wanted = answers.best(limit, KEY_SIZES);
    let pair = match wanted {
        Ok(pair) => pair,
        Err(told) => return Ok(Err(told)),
    };
    let plan = plan_wanted(heap, answers, wanted)?;
    let mut text = String::new(heap);
    let (length, cost) = (pair.length, pair.cost);
    writeln!(text, "{length} {cost}")?;
    for task in &answers.batch.standing {
        let number = task.number;
        let machine = plan.get(number).copied().unwrap_or(u8::MAX);
        writeln!(text, "{number} {machine}")?;
    }
    Ok(Ok(text))
}

// The line of a refusal.
pub(crate) fn refusal_text(heap: Global, told: Told) -> Result<String, AllocError> {
    let mut text = String::new(heap);
    let number = told.number;
    match told.carried {
        Some(value) => writeln!(text, "refused {number} {value}")?,
        None => writeln!(text, "refused {number}")?,
    }
    Ok(text)
}

// The lines that answer an input, or its refusal. None where there are too many assignments to try them.
pub(crate) fn key_answer(
    heap: Global,
    bytes: &[u8],
) -> Result<Option<Result<String, Told>>, AllocError> {
    let deciding = bytes.get(..DECIDING_BYTES).unwrap_or(bytes);
    let (read, question) = match read_key(heap, deciding)? {
        Ok(key) => key,
        Err(told) => return Ok(Some(Err(told))),
    };
    let batch = Batch::priced(heap, &read.book, &read.prices)?;
    if batch.cells_needed() > KEY_SIZES.cells {
        return Ok(Some(Err(Told::bare(7))));
    }
    if !batch.can_be_tried() {
        return Ok(None);
    }
    let answers = Answers::of(heap, batch)?;
    match question {
        KeyQuestion::Front => Ok(Some(Ok(front_text(heap, &answers)?))),
        KeyQuestion::Within(limit) => limit_text(heap, &answers, limit).map(Some),
    }
}

fn verdict_of(
    heap: Global,
    first: &ReadBatch,
    second: &ReadBatch,
) -> Result<Option<Result<bool, Told>>, AllocError> {
    let first = Batch::priced(heap, &first.book, &first.prices)?;
    let second = Batch::priced(heap, &second.book, &second.prices)?;
    if first.cells_needed().max(second.cells_needed()) > KEY_SIZES.cells {
        return Ok(Some(Err(Told::bare(7))));
    }
    if !first.can_be_tried() || !second.can_be_tried() {
        return Ok(None);
    }
    let compared = Compared {
        first: &Answers::of(heap, first)?,
        second: &Answers::of(heap, second)?,
        sizes: KEY_SIZES,
    };
    Ok(Some(compared.verdict()))
}

// The verdict on two inputs, or the refusal and the input that it is about. None where there are too many assignments.
pub(crate) fn inputs_answer(
    heap: Global,
    first: &[u8],
    second: &[u8],
) -> Result<Option<Result<bool, (About, Told)>>, AllocError> {
    let first = match read_offer(heap, first)? {
        Ok(batch) => batch,
        Err(told) => return Ok(Some(Err((About::First, told)))),
    };
    let second = match read_offer(heap, second)? {
        Ok(batch) => batch,
        Err(told) => return Ok(Some(Err((About::Second, told)))),
    };
    let verdict = verdict_of(heap, &first, &second)?;
    Ok(verdict.map(|verdict| verdict.map_err(|told| (About::Both, told))))
}
