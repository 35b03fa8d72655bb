// Prices that are drawn: cards and tables by calls of the library that are compared.
use crate::draw::{self, Scale, one_in};
use crate::given::{Charge, GIVEN_MACHINES, WORK_CLASSES};
use crate::kind::Kind;
use crate::prices::{MOST_MACHINES, Prices, Terms, line_answer, rows_answer};
use crate::report::{Outcome, Question, Report};
use crate::told::Told;
use std::alloc::{AllocError, Global};
use tariffs::{RateCard, Row, check_rows};
use trials::Sequence;

// Adds lines to a card, and compares. Returns those that it took.
fn draw_lines(
    report: &mut Report,
    numbers: &mut Sequence,
    count: u32,
) -> anyhow::Result<Vec<Terms>> {
    let mut card = RateCard::new();
    let mut lines = Vec::new(report.rt.alloc());
    for _ in 0..count {
        let line = draw::terms(numbers);
        let answer = card.add(line.speed, line.rate).map_err(Told::of);
        let wanted = line_answer(&lines, line);
        report.note(
            Question::Line,
            Outcome {
                same: answer == wanted,
                refused: wanted.err(),
            },
        )?;
        if wanted.is_ok() {
            lines.push(line)?;
        }
    }
    Ok(lines)
}

// Draws rows, and compares what the check tells of them.
fn draw_rows(
    report: &mut Report,
    numbers: &mut Sequence,
    scale: Scale,
    count: u32,
) -> anyhow::Result<Vec<Row>> {
    let mut rows = Vec::new(report.rt.alloc());
    for _ in 0..count {
        rows.push(draw::row(numbers, scale))?;
    }
    let answer = check_rows(&rows).map_err(Told::of);
    let wanted = rows_answer(&rows);
    report.note(
        Question::Rows,
        Outcome {
            same: answer == wanted,
            refused: wanted.err(),
        },
    )?;
    Ok(rows)
}

fn draw_charges(
    heap: Global,
    numbers: &mut Sequence,
    scale: Scale,
) -> Result<Vec<Charge>, AllocError> {
    let mut charges = Vec::new(heap);
    for _ in 0..GIVEN_MACHINES * WORK_CLASSES {
        charges.push(draw::charge(numbers, scale))?;
    }
    Ok(charges)
}

// The same charges on the machines from the last to the first.
fn turned_charges(heap: Global, charges: &[Charge]) -> Result<Vec<Charge>, AllocError> {
    let mut turned = Vec::new(heap);
    for machine in (0..GIVEN_MACHINES).rev() {
        let of_machine = charges
            .iter()
            .skip(machine * WORK_CLASSES)
            .take(WORK_CLASSES);
        turned.extend(of_machine.copied())?;
    }
    Ok(turned)
}

fn turned_row(row: &Row) -> Row {
    let last = (MOST_MACHINES as u32).saturating_sub(1);
    Row {
        machine: last.saturating_sub(row.machine),
        ..*row
    }
}

impl Prices {
    // Prices of this cost kind, under one of its tariffs.
    pub(crate) fn drawn(
        report: &mut Report,
        numbers: &mut Sequence,
        kind: Kind,
        scale: Scale,
    ) -> anyhow::Result<Prices> {
        if one_in(numbers, 16) {
            return Ok(Prices::Never(kind));
        }
        match kind {
            Kind::Cents if one_in(numbers, 4) => {
                let charges = draw_charges(report.rt.alloc(), numbers, scale)?;
                Ok(Prices::Given(charges))
            }
            Kind::Cents => {
                let count = numbers.next(0, scale.lines.saturating_add(1));
                draw_lines(report, numbers, count).map(Prices::Card)
            }
            Kind::Grades => {
                let count = numbers.next(0, scale.rows.saturating_add(1));
                draw_rows(report, numbers, scale, count).map(Prices::Table)
            }
        }
    }

    // The same prices on machines of other numbers.
    pub(crate) fn turned(&self, heap: Global) -> Result<Prices, AllocError> {
        match self {
            Prices::Card(lines) => {
                let turned = lines.iter().rev().copied().collect(heap)?;
                Ok(Prices::Card(turned))
            }
            Prices::Table(rows) => {
                let turned = rows.iter().map(turned_row).collect(heap)?;
                Ok(Prices::Table(turned))
            }
            Prices::Given(charges) => turned_charges(heap, charges).map(Prices::Given),
            Prices::Never(kind) => Ok(Prices::Never(*kind)),
        }
    }
}

// The card of lines that a card took.
pub(crate) fn card_of(lines: &[Terms]) -> RateCard {
    let mut card = RateCard::new();
    for line in lines {
        let _ = card.add(line.speed, line.rate);
    }
    card
}
