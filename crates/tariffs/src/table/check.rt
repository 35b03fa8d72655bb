// The check of a table's rows, and a table over them.
ghost use Rattle.std.specs.Prelude.{◌≡◌};
ghost use Rattle.refusals.specs.Answer.{answer_of};
ghost use Rattle.tariffs.specs.Refusal.{row_told};
ghost use Rattle.tariffs.specs.Table.{FirstRowQuotes};
ghost use Rattle.tariffs.specs.Rows.{bad_row, rows_answer, CheckTells};

use crate::table::MAX_ROWS;
use crate::{MAX_MACHINES, MAX_MINUTES, QuoteTable, Row, RowRefusal};
use costs::Grade;
use work::work_in_range;

// Whether a number of the row is out of range.
fn is_bad(row: &Row) -> bool
    ensures { result ≡ bad_row row.now }
{
    row.machine as usize >= MAX_MACHINES
        || !work_in_range(row.work)
        || !(1..=MAX_MINUTES).contains(&row.minutes)
        || row.grade > u32::from(Grade::GREATEST)
}

// Reports the first bad row; without one, too many rows.
pub fn check_rows(rows: &[Row]) -> Result<(), RowRefusal>
    ensures answer { answer_of row_told result ≡ rows_answer rows.now }
    ensures words { CheckTells rows.now result }
{
    match rows.iter().position(is_bad) {
        Some(row) => Err(RowRefusal::Bad(row)),
        None if rows.len() > MAX_ROWS => Err(RowRefusal::TooMany),
        None => Ok(()),
    }
}

impl<'a> QuoteTable<'a> {
    // A table over these rows. Where they fail the check, it quotes nothing.
    pub fn over(rows: &'a [Row]) -> QuoteTable<'a>
        ensures rows { result.rows.now ≡ rows.now }
        ensures words { FirstRowQuotes rows.now }
    {
        let passed = check_rows(rows).is_ok();
        QuoteTable { rows, passed }
    }
}
