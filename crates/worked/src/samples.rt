// The samples as values of the program.
ghost use Rattle.std.specs.Prelude.{◌≡◌};
ghost use Rattle.sheets.specs.History.{Known};
ghost use Rattle.tariffs.specs.Card.{lines_of};
ghost use Rattle.worked.specs.Samples.{calls_X, lines_A, rows_G};

use sheets::{Call, Sheet};
use tariffs::{RateCard, Row};

// Works 100 and 60 in the first stage, 60 in the second.
pub fn sheet_x() -> Sheet
    ensures { Known result calls_X }
{
    Sheet::replay(&[
        Call::Stage,
        Call::Task {
            stage: 0,
            work: 100,
        },
        Call::Task { stage: 0, work: 60 },
        Call::Stage,
        Call::Task { stage: 1, work: 60 },
    ])
}

// Three machines, each dearer and faster than the one before.
pub fn card_a() -> RateCard
    ensures { lines_of result ≡ lines_A }
{
    let mut card = RateCard::new();
    for (speed, rate) in [(10, 600), (20, 1500), (60, 6000)] {
        let _ = card.add(speed, rate);
    }
    card
}

// Rows for both works of the sheet.
pub fn rows_g() -> [Row; 5]
    ensures { result ≡ rows_G }
{
    [
        (0, 100, 10, 1),
        (1, 100, 5, 4),
        (0, 60, 6, 1),
        (1, 60, 3, 1),
        (2, 60, 1, 9),
    ]
    .map(|(machine, work, minutes, grade)| Row {
        machine,
        work,
        minutes,
        grade,
    })
}
