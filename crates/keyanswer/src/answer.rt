// The answer to the input of a key.
ghost use Rattle.std.specs.Prelude.{◌≡◌, take, IfOk};
ghost use Rattle.refusals.specs.Answer.{answer_of};
ghost use Rattle.sheets.specs.Book.{book};
ghost use Rattle.tariffs.specs.Card.{lines_of, lines_meaning};
ghost use Rattle.texts.specs.Write.{Writes, FitsIn};
ghost use Rattle.planner.specs.Refusal.{question_told};
ghost use Rattle.keyinput.specs.Deciding.{deciding_bytes, FirstBytesDecide};
ghost use Rattle.keyinput.specs.Input.{key_in};
ghost use Rattle.keyanswer.specs.Answer.{text_bytes, front_lines, answer_lines, limit_text, text_of, key_text};
ghost use Rattle.keyanswer.specs.Words.{TextTells};
ghost use Rattle.keyanswer.specs.declared.answer.TheConstants.{INPUT_BYTES, TEXT_BYTES};

use crate::memory::{CELLS, POINTS, unwritten};
use crate::priced::priced;
use costs::Cents;
use keyinput::{Question, read_input};
use keylines::{write_lines, write_result};
use model::{Cell, Point, PricedSheet};
use planner::{QuestionRefusal, budget, deadline, front};
use sheets::{MAX_TASKS, Sheet};
use tariffs::RateCard;
use texts::{TooShort, write_refusal};

/// The bytes of an input that decide: what stands behind them changes no answer, no refusal and no place.
pub const INPUT_BYTES: usize = 1_024;

/// No text of an answer has more bytes.
pub const TEXT_BYTES: usize = 98_304;

fn answer_front(
    priced: &PricedSheet<RateCard>,
    cells: &mut [Cell<Cents>; CELLS],
    text: &mut [u8],
) -> Result<usize, TooShort>
    ensures { let T = lines_meaning (lines_of priced.now.tariff.now) in
        Writes (text_of (front_lines T (book priced.now.sheet.now))) text.old text.new result }
{
    let mut points = [unwritten(); POINTS];
    match front(priced, cells, &mut points) {
        Ok(count) => write_lines(&points[..count], text),
        Err(refusal) => write_refusal(&refusal, text),
    }
}

// Writes what a question under a limit answered: the pair and the machines of its plan, or the refusal.
fn write_limit(
    answered: Result<Point<Cents>, QuestionRefusal>,
    sheet: &Sheet,
    plan: &[u8],
    text: &mut [u8],
) -> Result<usize, TooShort>
    ensures { let written = limit_text (book sheet.now) (answer_of question_told answered) plan.now in
        Writes written text.old text.new result }
{
    match answered {
        Ok(point) => write_result(&point, sheet, plan, text),
        Err(refusal) => write_refusal(&refusal, text),
    }
}

fn answer_question(
    priced: &PricedSheet<RateCard>,
    question: Question,
    text: &mut [u8],
) -> Result<usize, TooShort>
    ensures text { let T = lines_meaning (lines_of priced.now.tariff.now) in
        Writes (text_of (answer_lines T (book priced.now.sheet.now) question)) text.old text.new result }
    ensures fits { FitsIn text_bytes text.old result }
{
    let mut cells = [Cell::of(None); CELLS];
    let mut plan = [0; MAX_TASKS];
    let answered = match question {
        Question::Front => return answer_front(priced, &mut cells, text),
        Question::Budget(limit) => {
            budget(priced, Cents::new(u64::from(limit)), &mut cells, &mut plan)
        }
        Question::Deadline(limit) => deadline(priced, limit, &mut cells, &mut plan),
    };
    write_limit(answered, priced.sheet, &plan, text)
}

/// Writes the text of the answer to an input at the start of the memory, and returns how many bytes that took: a line for
/// each point of the front, or the line of the pair and one for each standing task, or the line of a refusal, also where the
/// input is not read (docs/RULES.md, "The input of a key"). Refused only where the memory, of fewer than `TEXT_BYTES`
/// bytes, is too short for the text; then nothing is altered. Of a longer input than `INPUT_BYTES` no more is looked at.
pub fn answer_key(input: &[u8], text: &mut [u8]) -> Result<usize, TooShort>
    ensures text { Writes (key_text input.now) text.old text.new result }
    ensures fits { FitsIn text_bytes text.old result }
    ensures words { IfOk result (λ count. TextTells input.now (take count text.new)) }
    ensures decided { FirstBytesDecide key_in }
    ensures sizes { (INPUT_BYTES ≡ deciding_bytes) × (TEXT_BYTES ≡ text_bytes) }
{
    let deciding = input.len().min(INPUT_BYTES);
    match read_input(&input[..deciding]) {
        Ok(key) => answer_question(&priced(&key.batch), key.question, text),
        Err(refusal) => write_refusal(&refusal, text),
    }
}
