// The question which of two inputs, a card and a sheet each, has the better bargain.
ghost use Rattle.std.specs.Prelude.{◌≡◌};
ghost use Rattle.refusals.specs.Answer.{answer_of};
ghost use Rattle.costs.specs.Cents.{cents_kind};
ghost use Rattle.planner.specs.Better.{BetterTells};
ghost use Rattle.planner.specs.Refusal.{question_told};
ghost use Rattle.keyinput.specs.Batch.{batch_of};
ghost use Rattle.keyanswer.specs.Better.{
  offers_answered,
  cells_left,
  first_points_left,
  second_points_left,
  better_offer,
  verdict_within,
  verdict_on,
  cells_behind,
  first_points_behind,
  second_points_behind,
  offers_better,
  key_verdict,
  better_heard,
  BatchesTell,
  Roomy,
};
ghost use Rattle.keyanswer.specs.Compare.{offered};

use crate::CompareRefusal;
use crate::memory::{CELLS, POINTS, unwritten};
use crate::priced::priced;
use costs::Cents;
use keyinput::{Batch, read_batch};
use model::{Better, Cell, Point};
use planner::{QuestionRefusal, better_bargain};

fn ask(
    first: &Batch,
    second: &Batch,
    cells: &mut [Cell<Cents>],
    first_points: &mut [Point<Cents>],
    second_points: &mut [Point<Cents>],
) -> Result<Option<Better<Cents>>, QuestionRefusal>
    ensures answer { answer_of question_told result ≡ offers_answered
        cells.old first_points.old second_points.old (batch_of first.now) (batch_of second.now) }
    ensures cells { cells.new ≡ cells_left
        cells.old first_points.old second_points.old (batch_of first.now) (batch_of second.now) }
    ensures first_points { first_points.new ≡ first_points_left
        cells.old first_points.old second_points.old (batch_of first.now) (batch_of second.now) }
    ensures second_points { second_points.new ≡ second_points_left
        cells.old first_points.old second_points.old (batch_of first.now) (batch_of second.now) }
    ensures words { let one = batch_of first.now in
        let other = batch_of second.now in
        BetterTells cents_kind (offered one) one.book (offered other) other.book result }
    ensures enough { Roomy cells.old first_points.old second_points.old
        → answer_of question_told result
        ≡ Ok (better_offer (batch_of first.now) (batch_of second.now)) }
{
    better_bargain(
        &priced(first),
        &priced(second),
        cells,
        first_points,
        second_points,
    )
}

/// Which of two inputs, a card and a sheet each with nothing behind them, has the better bargain, and its pair; `None`
/// where both offer the same bargains. The pair is one that an assignment of that input's sheet has, and no assignment of
/// the other is as good as, that is no longer and no dearer (docs/RULES.md, "The same bargains").
///
/// One memory of cells serves both sheets, and both fronts stand in their points afterwards, as after
/// `planner::better_bargain`. 391,697 cells and 23,041 points for each sheet always suffice.
///
/// # Errors
///
/// `First` where the first input is not read, else `Second` where the second is not, and then nothing is altered; else
/// `Memory` where the memory is too short for either front.
pub fn better_batch(
    first: &[u8],
    second: &[u8],
    cells: &mut [Cell<Cents>],
    first_points: &mut [Point<Cents>],
    second_points: &mut [Point<Cents>],
) -> Result<Option<Better<Cents>>, CompareRefusal>
    ensures answer { better_heard result
        ≡ verdict_within first.now second.now cells.old first_points.old second_points.old }
    ensures cells { cells.new
        ≡ cells_behind first.now second.now cells.old first_points.old second_points.old }
    ensures first_points { first_points.new
        ≡ first_points_behind first.now second.now cells.old first_points.old second_points.old }
    ensures second_points { second_points.new
        ≡ second_points_behind first.now second.now cells.old first_points.old second_points.old }
    ensures words { BatchesTell first.now second.now result }
    ensures enough { Roomy cells.old first_points.old second_points.old
        → verdict_within first.now second.now cells.old first_points.old second_points.old
        ≡ verdict_on first.now second.now }
{
    let first = read_batch(first).map_err(CompareRefusal::First)?;
    let second = read_batch(second).map_err(CompareRefusal::Second)?;
    ask(&first, &second, cells, first_points, second_points).map_err(CompareRefusal::Memory)
}

// Asks with the memory of a key.
fn ask_key(first: &Batch, second: &Batch) -> Result<Option<Better<Cents>>, QuestionRefusal>
    ensures answer { answer_of question_told result
        ≡ offers_better (batch_of first.now) (batch_of second.now) }
    ensures words { let one = batch_of first.now in
        let other = batch_of second.now in
        BetterTells cents_kind (offered one) one.book (offered other) other.book result }
{
    let mut cells = [Cell::of(None); CELLS];
    let mut first_points = [unwritten(); POINTS];
    let mut second_points = [unwritten(); POINTS];
    ask(
        first,
        second,
        &mut cells,
        &mut first_points,
        &mut second_points,
    )
}

/// The same as `better_batch` with 4,096 cells, and 4,096 points for each sheet, which it has on the stack.
///
/// # Errors
///
/// As `better_batch`.
pub fn better_of_batches(
    first: &[u8],
    second: &[u8],
) -> Result<Option<Better<Cents>>, CompareRefusal>
    ensures answer { better_heard result ≡ key_verdict first.now second.now }
    ensures words { BatchesTell first.now second.now result }
{
    let first = read_batch(first).map_err(CompareRefusal::First)?;
    let second = read_batch(second).map_err(CompareRefusal::Second)?;
    ask_key(&first, &second).map_err(CompareRefusal::Memory)
}
