// The question which of two sheets has the better bargain.
ghost use Rattle.std.specs.Prelude.{◌≡◌, length};
ghost use Rattle.refusals.specs.Answer.{answer_of};
ghost use Rattle.sheets.specs.Book.{book};
ghost use Rattle.sheets.specs.History.{KnownFurther};
ghost use Rattle.model.specs.Better.{first_difference};
ghost use Rattle.model.specs.Limit.{shorter_then_cheaper};
ghost use Rattle.planner.specs.Bargain.{bargains_cells, bargains_first_points, bargains_second_points};
ghost use Rattle.planner.specs.Better.{better_answer, BetterTells};
ghost use Rattle.planner.specs.Refusal.{question_told};

use crate::QuestionRefusal;
use crate::fronts::write_front;
use cells::{MinutesTable, TimedSheet, check_cells};
use costs::Cost;
use model::{Better, Cell, Point, PricedSheet};
use sheets::Call;
use tariffs::Tariff;

// Shorter, or as long and no dearer.
fn shorter_then_cheaper<C: Cost>(first: &Point<C>, second: &Point<C>) -> bool
    ensures { result ≡ shorter_then_cheaper C.Cost.kind first.now second.now }
{
    first.length < second.length
        || (first.length == second.length && first.cost.at_most(second.cost))
}

// Where two fronts first differ, the point that is shorter, or as long and cheaper; past the end of one front, the next
// of the other.
fn first_difference<C: Cost>(first: &[Point<C>], second: &[Point<C>]) -> Option<Better<C>>
    ensures { result ≡ first_difference C.Cost.kind first.now second.now }
{
    let mut others = second.iter();
    for point in first {
        let Some(other) = others.next() else {
            return Some(Better::First(*point));
        };
        if !shorter_then_cheaper(point, other) {
            return Some(Better::Second(*other));
        }
        if !shorter_then_cheaper(other, point) {
            return Some(Better::First(*point));
        }
    }
    others.next().map(|other| Better::Second(*other))
}

// Asks both fronts, the first sheet's first, and compares them.
fn compare<T: Tariff, U: Tariff<Cost = T::Cost>>(
    first: &TimedSheet<T>,
    second: &TimedSheet<U>,
    cells: &mut [Cell<T::Cost>],
    first_points: &mut [Point<T::Cost>],
    second_points: &mut [Point<T::Cost>],
) -> Result<Option<Better<T::Cost>>, QuestionRefusal>
    ensures answer { answer_of question_told result ≡ better_answer T.Cost.Cost.kind
        (T.Tariff.meaning first.now.priced.tariff.now) (book first.now.priced.sheet.now)
        (U.Tariff.meaning second.now.priced.tariff.now) (book second.now.priced.sheet.now)
        cells.old first_points.old second_points.old }
    ensures cells { cells.new ≡ bargains_cells T.Cost.Cost.kind
        (T.Tariff.meaning first.now.priced.tariff.now) (book first.now.priced.sheet.now)
        (U.Tariff.meaning second.now.priced.tariff.now) (book second.now.priced.sheet.now)
        cells.old first_points.old second_points.old }
    ensures first_points { first_points.new ≡ bargains_first_points T.Cost.Cost.kind
        (T.Tariff.meaning first.now.priced.tariff.now) (book first.now.priced.sheet.now)
        (U.Tariff.meaning second.now.priced.tariff.now) (book second.now.priced.sheet.now)
        cells.old first_points.old second_points.old }
    ensures second_points { second_points.new ≡ bargains_second_points T.Cost.Cost.kind
        (T.Tariff.meaning first.now.priced.tariff.now) (book first.now.priced.sheet.now)
        (U.Tariff.meaning second.now.priced.tariff.now) (book second.now.priced.sheet.now)
        cells.old first_points.old second_points.old }
{
    check_cells(first, cells).and(check_cells(second, cells))?;
    let first_count = write_front(first, cells, first_points)?;
    let second_count = write_front(second, cells, second_points)?;
    Ok(first_difference(&first_points[..first_count], &second_points[..second_count]))
}

/// Which of two sheets, each under its tariff, has the better bargain, and its pair; `None` where both offer the same
/// bargains, that is where their fronts are equal.
///
/// The pair is one that an assignment of that sheet has, and no assignment of the other is as good as, that is no longer
/// and no dearer. It is the shortest such pair of either sheet and, of that length, the cheapest, and stands on that
/// sheet's front. One memory of cells serves both sheets; both fronts stand in their points afterwards.
///
/// # Errors
///
/// `TooFewCells` where there are fewer cells than either front needs, and then nothing is altered; `TooShort` where either
/// front's points are too short for it. docs/RULES.md, "The same bargains", says what is altered then.
pub fn better_bargain<T: Tariff, U: Tariff<Cost = T::Cost>>(
    first: &PricedSheet<T>,
    second: &PricedSheet<U>,
    cells: &mut [Cell<T::Cost>],
    first_points: &mut [Point<T::Cost>],
    second_points: &mut [Point<T::Cost>],
) -> Result<Option<Better<T::Cost>>, QuestionRefusal>
    ensures answer { answer_of question_told result ≡ better_answer T.Cost.Cost.kind
        (T.Tariff.meaning first.now.tariff.now) (book first.now.sheet.now)
        (U.Tariff.meaning second.now.tariff.now) (book second.now.sheet.now)
        cells.old first_points.old second_points.old }
    ensures cells { cells.new ≡ bargains_cells T.Cost.Cost.kind
        (T.Tariff.meaning first.now.tariff.now) (book first.now.sheet.now)
        (U.Tariff.meaning second.now.tariff.now) (book second.now.sheet.now)
        cells.old first_points.old second_points.old }
    ensures first_points { first_points.new ≡ bargains_first_points T.Cost.Cost.kind
        (T.Tariff.meaning first.now.tariff.now) (book first.now.sheet.now)
        (U.Tariff.meaning second.now.tariff.now) (book second.now.sheet.now)
        cells.old first_points.old second_points.old }
    ensures second_points { second_points.new ≡ bargains_second_points T.Cost.Cost.kind
        (T.Tariff.meaning first.now.tariff.now) (book first.now.sheet.now)
        (U.Tariff.meaning second.now.tariff.now) (book second.now.sheet.now)
        cells.old first_points.old second_points.old }
    ensures words { BetterTells T.Cost.Cost.kind
        (T.Tariff.meaning first.now.tariff.now) (book first.now.sheet.now)
        (U.Tariff.meaning second.now.tariff.now) (book second.now.sheet.now) result }
    ensures known { (KnownFurther first.now.sheet.now Call.Front first.now.sheet.now) × (KnownFurther second.now.sheet.now Call.Front second.now.sheet.now) }
{
    let mut first_table = MinutesTable::new();
    let mut second_table = MinutesTable::new();
    let first = TimedSheet::of_standing(first, &mut first_table);
    let second = TimedSheet::of_standing(second, &mut second_table);
    compare(&first, &second, cells, first_points, second_points)
}
