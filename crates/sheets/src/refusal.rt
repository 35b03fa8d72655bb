// The refusals of a sheet.
ghost use Rattle.sheets.specs.Refusals.{sheet_told};

use refusals::Refusal;

#[derive(Clone, Copy, PartialEq, Eq, Debug)]
pub enum SheetRefusal {
    // no room for a further stage or task
    Full,
    // no such stage, or no such standing task
    Unknown,
    WorkOutOfRange,
}

impl Refusal for SheetRefusal {
    ghost told = { sheet_told };

    fn number(&self) -> u8 {
        match self {
            SheetRefusal::Full => 1,
            SheetRefusal::Unknown => 2,
            SheetRefusal::WorkOutOfRange => 3,
        }
    }

    fn carried(&self) -> Option<usize> {
        None
    }
}
