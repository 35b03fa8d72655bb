// The question whether two sheets offer the same bargains.
ghost use Rattle.std.specs.Prelude.{◌≡◌, IfOk};
ghost use Rattle.refusals.specs.Answer.{answer_of};
ghost use Rattle.sheets.specs.Book.{book};
ghost use Rattle.sheets.specs.History.{KnownFurther};
ghost use Rattle.model.specs.Bargain.{BargainsAgree, Verdict};
ghost use Rattle.planner.specs.Bargain.{bargains_answer, bargains_cells};
ghost use Rattle.planner.specs.Bargain.{bargains_first_points, bargains_second_points};
ghost use Rattle.planner.specs.Refusal.{question_told};

use crate::QuestionRefusal;
use crate::better::better_bargain;
use model::{Cell, Point, PricedSheet};
use sheets::Call;
use tariffs::Tariff;

/// Whether two sheets, each under its tariff, offer the same bargains: whether their fronts are equal (docs/RULES.md, "The
/// same bargains"). Both fronts are written to their points, the first sheet's first; one memory of cells serves both.
/// Refused with 7 where the cells are too few for either front, and with 8 where its points are too short for it.
pub fn same_bargains<T: Tariff, U: Tariff<Cost = T::Cost>>(
    first: &PricedSheet<T>,
    second: &PricedSheet<U>,
    cells: &mut [Cell<T::Cost>],
    first_points: &mut [Point<T::Cost>],
    second_points: &mut [Point<T::Cost>],
) -> Result<bool, QuestionRefusal>
    ensures answer { answer_of question_told result ≡ bargains_answer T.Cost.Cost.kind
        (T.Tariff.meaning first.now.tariff.now) (book first.now.sheet.now)
        (U.Tariff.meaning second.now.tariff.now) (book second.now.sheet.now)
        cells.old first_points.old second_points.old }
    ensures cells { cells.new ≡ bargains_cells T.Cost.Cost.kind
        (T.Tariff.meaning first.now.tariff.now) (book first.now.sheet.now)
        (U.Tariff.meaning second.now.tariff.now) (book second.now.sheet.now)
        cells.old first_points.old second_points.old }
    ensures first_points { first_points.new ≡ bargains_first_points T.Cost.Cost.kind
        (T.Tariff.meaning first.now.tariff.now) (book first.now.sheet.now)
        (U.Tariff.meaning second.now.tariff.now) (book second.now.sheet.now)
        cells.old first_points.old second_points.old }
    ensures second_points { second_points.new ≡ bargains_second_points T.Cost.Cost.kind
        (T.Tariff.meaning first.now.tariff.now) (book first.now.sheet.now)
        (U.Tariff.meaning second.now.tariff.now) (book second.now.sheet.now)
        cells.old first_points.old second_points.old }
    ensures bargains { BargainsAgree T.Cost.Cost.kind
        (T.Tariff.meaning first.now.tariff.now) (U.Tariff.meaning second.now.tariff.now) }
    ensures verdict { IfOk result (Verdict T.Cost.Cost.kind
        (T.Tariff.meaning first.now.tariff.now) (book first.now.sheet.now)
        (U.Tariff.meaning second.now.tariff.now) (book second.now.sheet.now)) }
    ensures known { (KnownFurther first.now.sheet.now Call.Front first.now.sheet.now)
        × (KnownFurther second.now.sheet.now Call.Front second.now.sheet.now) }
{
    let better = better_bargain(first, second, cells, first_points, second_points)?;
    Ok(better.is_none())
}
