// The quote table as a tariff.
ghost use Rattle.std.specs.Prelude.{◌≡◌};
ghost use Rattle.tariffs.specs.Rows.{bears};
ghost use Rattle.tariffs.specs.Table.{table_meaning};
ghost use Rattle.tariffs.specs.Ranges.{table_ranged};

use crate::{MAX_MACHINES, Quote, QuoteTable, Row, Tariff};
use costs::Grade;

// Whether the row is for this machine and this work.
fn bears(row: &Row, machine: usize, work: u32) -> bool
    ensures { result ≡ bears row.now machine work }
{
    row.machine as usize == machine && row.work == work
}

impl<'a> Tariff for QuoteTable<'a> {
    type Cost = Grade;

    ghost meaning = { table_meaning };

    ghost ranged = { table_ranged };

    fn machines(&self) -> usize {
        MAX_MACHINES
    }

    fn quote(&self, machine: usize, work: u32) -> Option<Quote<Grade>> {
        if !self.passed {
            return None;
        }
        for row in self.rows {
            if bears(row, machine, work) {
                return Some(Quote {
                    minutes: row.minutes,
                    cost: Grade::new(row.grade),
                });
            }
        }
        None
    }
}
