// The sheets that are tried, drawn one by one.
use crate::draw::{self, FEW_MINUTES, MANY_MINUTES, Scale, TOO_MANY, one_in};
use crate::drawn::card_of;
use crate::files::asks::{ask_key, try_files};
use crate::files::spelled::{push_card, push_number};
use crate::given::GivenTariff;
use crate::kind::Kind;
use crate::lent::Memories;
use crate::limit::Limit;
use crate::offered::Offered;
use crate::prices::Prices;
use crate::report::Report;
use crate::tries::{Trial, try_quotes};
use std::alloc::{AllocError, Global};
use tariffs::QuoteTable;
use trials::Sequence;

// Memory that is filled anew before each question, and memory that is kept from sheet to sheet.
#[derive(Drop)]
pub(crate) struct Lender {
    pub(crate) filled: Memories,
    pub(crate) kept: Memories,
}

impl Lender {
    pub(crate) fn new(heap: Global) -> Lender {
        Lender {
            filled: Memories::new(heap, false),
            kept: Memories::new(heap, true),
        }
    }
}

// Tries two sheets of one cost kind, through all questions and through files. Where the library differs, both are printed.
fn try_in(
    report: &mut Report,
    numbers: &mut Sequence,
    memories: &mut Memories,
    offered: (&Offered, &Offered),
    limits: &[Limit],
) -> anyhow::Result<()> {
    let (first, second) = offered;
    let before = report.differences;
    let answers = first.answers(report)?;
    let others = second.answers(report)?;
    let trial = Trial {
        first,
        second,
        answers: &answers,
        others: &others,
        limits,
    };
    trial.try_in(report, numbers, memories)?;
    try_files(report, numbers, memories, offered, &answers.pairs)?;
    if report.differences > before {
        first.print(report)?;
        second.print(report)?;
    }
    Ok(())
}

// The same in memory of one of the two ways.
pub(crate) fn try_both(
    report: &mut Report,
    numbers: &mut Sequence,
    lender: &mut Lender,
    offered: (&Offered, &Offered),
    limits: &[Limit],
) -> anyhow::Result<()> {
    if one_in(numbers, 2) {
        try_in(report, numbers, &mut lender.filled, offered, limits)
    } else {
        try_in(report, numbers, &mut lender.kept, offered, limits)
    }
}

fn try_small(
    report: &mut Report,
    numbers: &mut Sequence,
    lender: &mut Lender,
    kind: Kind,
    scale: Scale,
) -> anyhow::Result<()> {
    let first = Offered::drawn(report, numbers, kind, scale)?;
    let second = first.other(report, numbers, scale)?;
    try_both(report, numbers, lender, (&first, &second), &[])
}

fn try_all_quotes(report: &mut Report, offered: &Offered) -> anyhow::Result<()> {
    match &offered.prices {
        Prices::Card(lines) => try_quotes(report, &card_of(lines), offered),
        Prices::Table(rows) => try_quotes(report, &QuoteTable::over(rows), offered),
        Prices::Given(charges) => try_quotes(report, &GivenTariff { charges }, offered),
        Prices::Never(_) => Ok(()),
    }
}

// An input with up to more lines, stages and tasks than a card and a sheet take.
fn draw_large_input(
    heap: Global,
    numbers: &mut Sequence,
    offered: &Offered,
) -> Result<Vec<u8>, AllocError> {
    let mut bytes = Vec::new(heap);
    match &offered.prices {
        Prices::Card(lines) => push_card(&mut bytes, lines)?,
        _ => {
            let count = numbers.next(0, 36);
            push_number(&mut bytes, count)?;
            for _ in 0..count {
                push_number(&mut bytes, numbers.next(1, 9_000))?;
                push_number(&mut bytes, numbers.next(0, 1_000))?;
            }
        }
    }
    let stages = numbers.next(0, 20);
    let tasks = numbers.next(2, 38);
    push_number(&mut bytes, stages)?;
    for _ in 0..stages {
        let count = numbers.next(0, tasks);
        push_number(&mut bytes, count)?;
        for _ in 0..count {
            push_number(&mut bytes, draw::work(numbers, Kind::Cents, TOO_MANY))?;
        }
    }
    push_number(&mut bytes, 0)?;
    Ok(bytes)
}

// Tries the calls of a sheet, a card and a table past what they take, and files and inputs of them. Too many assignments
// stand on such a sheet to try them.
fn try_large(
    report: &mut Report,
    numbers: &mut Sequence,
    lender: &mut Lender,
    kind: Kind,
) -> anyhow::Result<()> {
    let large = Offered::drawn(report, numbers, kind, TOO_MANY)?;
    let small = Offered::drawn(report, numbers, kind, FEW_MINUTES)?;
    try_all_quotes(report, &large)?;
    let input = draw_large_input(report.rt.alloc(), numbers, &large)?;
    ask_key(report, numbers, &mut lender.filled, &input)?;
    try_files(report, numbers, &mut lender.filled, (&large, &small), &[])?;
    try_files(report, numbers, &mut lender.kept, (&small, &large), &[])
}

// Tries the next sheet.
pub(crate) fn try_next(
    report: &mut Report,
    numbers: &mut Sequence,
    lender: &mut Lender,
) -> anyhow::Result<()> {
    report.sheets = report.sheets.saturating_add(1);
    let kind = if one_in(numbers, 2) {
        Kind::Cents
    } else {
        Kind::Grades
    };
    match numbers.next(0, 64) {
        0 => try_large(report, numbers, lender, kind),
        1..=2 => try_small(report, numbers, lender, kind, MANY_MINUTES),
        _ => try_small(report, numbers, lender, kind, FEW_MINUTES),
    }
}
