// The question `front`.
ghost use Rattle.std.specs.Prelude.{◌≡◌};
ghost use Rattle.refusals.specs.Answer.{answer_of};
ghost use Rattle.sheets.specs.Book.{book};
ghost use Rattle.sheets.specs.History.{KnownFurther};
ghost use Rattle.model.specs.Question.{front_answer, front_cells, front_points};
ghost use Rattle.planner.specs.OffTheFront.{FrontBelow, FrontEmpty};
ghost use Rattle.planner.specs.Refusal.{question_told};
ghost use Rattle.planner.specs.Words.{FrontTells};

use crate::QuestionRefusal;
use crate::scan::{count_points, write_points};
use cells::{CellRows, MinutesTable, TimedSheet, fill};
use costs::Cost;
use model::{Cell, Point, PricedSheet};
use sheets::Call;
use tariffs::Tariff;

// Writes the front to the points, and returns how many there are.
pub(crate) fn write_front<T: Tariff>(
    timed: &TimedSheet<T>,
    cells: &mut [Cell<T::Cost>],
    points: &mut [Point<T::Cost>],
) -> Result<usize, QuestionRefusal>
    ensures answer { answer_of question_told result ≡ front_answer T.Cost.Cost.kind (T.Tariff.meaning timed.now.priced.tariff.now) (book timed.now.priced.sheet.now) cells.old points.old }
    ensures cells { cells.new ≡ front_cells T.Cost.Cost.kind (T.Tariff.meaning timed.now.priced.tariff.now) (book timed.now.priced.sheet.now) cells.old }
    ensures points { points.new ≡ front_points T.Cost.Cost.kind (T.Tariff.meaning timed.now.priced.tariff.now) (book timed.now.priced.sheet.now) cells.old points.old }
    ensures words { FrontTells T.Cost.Cost.kind (T.Tariff.meaning timed.now.priced.tariff.now) (book timed.now.priced.sheet.now) points.new result }
{
    let layout = fill(timed, cells)?;
    let rows = CellRows { cells, layout };
    let count = count_points(&rows);
    if points.len() < count {
        return Err(QuestionRefusal::TooShort);
    }
    write_points(&rows, points);
    Ok(count)
}

// Writes the front of the sheet under the tariff to the points, and returns how many there are.
pub fn front<T: Tariff>(
    priced: &PricedSheet<T>,
    cells: &mut [Cell<T::Cost>],
    points: &mut [Point<T::Cost>],
) -> Result<usize, QuestionRefusal>
    ensures answer { answer_of question_told result ≡ front_answer T.Cost.Cost.kind (T.Tariff.meaning priced.now.tariff.now) (book priced.now.sheet.now) cells.old points.old }
    ensures cells { cells.new ≡ front_cells T.Cost.Cost.kind (T.Tariff.meaning priced.now.tariff.now) (book priced.now.sheet.now) cells.old }
    ensures points { points.new ≡ front_points T.Cost.Cost.kind (T.Tariff.meaning priced.now.tariff.now) (book priced.now.sheet.now) cells.old points.old }
    ensures words { FrontTells T.Cost.Cost.kind (T.Tariff.meaning priced.now.tariff.now) (book priced.now.sheet.now) points.new result }
    ensures below { let meaning = T.Tariff.meaning priced.now.tariff.now in
        FrontBelow T.Cost.Cost.kind meaning (book priced.now.sheet.now) points.new result }
    ensures empty { let meaning = T.Tariff.meaning priced.now.tariff.now in
        FrontEmpty T.Cost.Cost.kind meaning (book priced.now.sheet.now) result }
    ensures known { KnownFurther priced.now.sheet.now Call.Front priced.now.sheet.now }
{
    let mut table = MinutesTable::new();
    let timed = TimedSheet::of_standing(priced, &mut table);
    write_front(&timed, cells, points)
}
