// The question whether two inputs, a card and a sheet each, offer the same bargains.
ghost use Rattle.std.specs.Prelude.{◌≡◌, IfOk};
ghost use Rattle.costs.specs.Cents.{cents_kind};
ghost use Rattle.refusals.specs.Answer.{answer_of};
ghost use Rattle.tariffs.specs.Card.{lines_of, lines_meaning};
ghost use Rattle.sheets.specs.Book.{book};
ghost use Rattle.model.specs.Bargain.{Verdict};
ghost use Rattle.planner.specs.Refusal.{question_told};
ghost use Rattle.keyinput.specs.Batch.{batch_of};
ghost use Rattle.keyanswer.specs.Compare.{offers_answer, compare_answer, heard, Judged};

use crate::CompareRefusal;
use crate::memory::{CELLS, POINTS, unwritten};
use crate::priced::priced;
use keyinput::{Batch, read_batch};
use model::Cell;
use planner::{QuestionRefusal, same_bargains};

fn compare(first: &Batch, second: &Batch) -> Result<bool, QuestionRefusal>
    ensures answer { answer_of question_told result
        ≡ offers_answer (batch_of first.now) (batch_of second.now) }
    ensures verdict { IfOk result (Verdict cents_kind
        (lines_meaning (lines_of first.now.card)) (book first.now.sheet)
        (lines_meaning (lines_of second.now.card)) (book second.now.sheet)) }
{
    let mut cells = [Cell::of(None); CELLS];
    let mut first_points = [unwritten(); POINTS];
    let mut second_points = [unwritten(); POINTS];
    same_bargains(
        &priced(first),
        &priced(second),
        &mut cells,
        &mut first_points,
        &mut second_points,
    )
}

// Whether two inputs offer the same bargains: the first is read, then the second, and then their fronts are compared.
pub fn compare_batches(first: &[u8], second: &[u8]) -> Result<bool, CompareRefusal>
    ensures answer { heard result ≡ compare_answer first.now second.now }
    ensures judged { Judged first.now second.now result }
{
    let first = read_batch(first).map_err(CompareRefusal::First)?;
    let second = read_batch(second).map_err(CompareRefusal::Second)?;
    compare(&first, &second).map_err(CompareRefusal::Memory)
}
