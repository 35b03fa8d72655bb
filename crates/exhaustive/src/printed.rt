// The printed cases of the rules, held against the search through all assignments, and tried as drawn sheets are.
use crate::answers::Answers;
use crate::case::Case;
use crate::files::asks::ask_key;
use crate::files::key::key_answer;
use crate::lent::{Memories, Sizes};
use crate::limit::Limit;
use crate::offered::Offered;
use crate::pair::Pair;
use crate::prices::{Prices, Terms};
use crate::questions::plan_wanted;
use crate::report::Report;
use crate::sheets_drawn::{Lender, try_both};
use crate::told::Told;
use sheets::Call;
use std::alloc::{AllocError, Global};
use tariffs::Row;
use trials::Sequence;

const CARD_A: [(u32, u32); 3] = [(10, 600), (20, 1_500), (60, 6_000)];

const TABLE_G: [(u32, u32, u32, u32); 5] = [
    (0, 100, 10, 1),
    (1, 100, 5, 4),
    (0, 60, 6, 1),
    (1, 60, 3, 1),
    (2, 60, 1, 9),
];

const FRONT_BY_CARD: [(u32, u64); 9] = [
    (3, 400),
    (4, 375),
    (6, 300),
    (7, 285),
    (8, 275),
    (9, 260),
    (12, 245),
    (13, 235),
    (16, 220),
];

const INPUT: [u8; 19] = [
    0x03, 0x0A, 0xD8, 0x04, 0x14, 0xDC, 0x0B, 0x3C, 0xF0, 0x2E, 0x02, 0x02, 0x64, 0x3C, 0x01, 0x3C,
    0x01, 0x84, 0x02,
];

// A printed answer: the pair and the plan, or a refusal.
type PrintedAnswer = (Limit, Result<(u32, u64), Told>, [u8; 3]);

// What is printed of a sheet. No plan stands behind a refusal.
#[derive(Clone, Copy)]
struct Printed<'a> {
    front: &'a [(u32, u64)],
    answers: &'a [PrintedAnswer],
}

fn pair((length, cost): (u32, u64)) -> Pair {
    Pair { length, cost }
}

fn card_a(heap: Global) -> Result<Prices, AllocError> {
    let lines = CARD_A.iter().map(|(speed, rate)| Terms {
        speed: *speed,
        rate: *rate,
    });
    Ok(Prices::Card(lines.collect(heap)?))
}

fn table_g(heap: Global) -> Result<Prices, AllocError> {
    let rows = TABLE_G.iter().map(|(machine, work, minutes, grade)| Row {
        machine: *machine,
        work: *work,
        minutes: *minutes,
        grade: *grade,
    });
    Ok(Prices::Table(rows.collect(heap)?))
}

// A sheet with these works in its stages.
fn sheet_of(report: &mut Report, stages: &[&[u32]]) -> anyhow::Result<Case> {
    let mut case = Case::opened(report.rt.alloc());
    for (stage, works) in stages.iter().enumerate() {
        case.call(report, Call::Stage)?;
        for work in *works {
            case.call(report, Call::Task { stage, work: *work })?;
        }
    }
    Ok(case)
}

fn sheet_x(report: &mut Report) -> anyhow::Result<Case> {
    sheet_of(report, &[&[100, 60], &[60]])
}

// Whether the search through all assignments comes to what is printed.
fn is_as_printed(
    heap: Global,
    answers: &Answers,
    printed: &PrintedAnswer,
) -> Result<bool, AllocError> {
    let (limit, wanted, plan) = *printed;
    let found = answers.best(limit, Sizes::exactly(answers));
    let same_plan = match found {
        Ok(_) => plan_wanted(heap, answers, found)?.as_slice() == plan.as_slice(),
        Err(_) => true,
    };
    Ok(found == wanted.map(pair) && same_plan)
}

// Holds what the search finds against what is printed, and tries the sheet beside one that offers the same bargains.
fn try_printed(
    report: &mut Report,
    numbers: &mut Sequence,
    lender: &mut Lender,
    offered: &Offered,
    printed: Printed,
) -> anyhow::Result<()> {
    report.sheets = report.sheets.saturating_add(1);
    let heap = report.rt.alloc();
    let answers = offered.answers(report)?;
    let front = printed.front.iter().map(|point| pair(*point));
    report.note_printed(answers.front.iter().copied().eq(front))?;
    let mut limits = Vec::new(heap);
    for answer in printed.answers {
        report.note_printed(is_as_printed(heap, &answers, answer)?)?;
        limits.push(answer.0)?;
    }
    let turned = offered.turned(report)?;
    try_both(report, numbers, lender, (offered, &turned), &limits)
}

fn try_x_by_card(
    report: &mut Report,
    numbers: &mut Sequence,
    lender: &mut Lender,
) -> anyhow::Result<()> {
    let offered = Offered {
        prices: card_a(report.rt.alloc())?,
        case: sheet_x(report)?,
    };
    let printed = Printed {
        front: &FRONT_BY_CARD,
        answers: &[
            (Limit::Budget(399), Ok((4, 375)), [2, 1, 2]),
            (Limit::Budget(260), Ok((9, 260)), [1, 0, 1]),
            (Limit::Budget(259), Ok((12, 245)), [1, 0, 0]),
            (Limit::Budget(219), Err(Told::bare(10)), [0; 3]),
            (Limit::Deadline(5), Ok((4, 375)), [2, 1, 2]),
            (Limit::Deadline(2), Err(Told::bare(10)), [0; 3]),
        ],
    };
    try_printed(report, numbers, lender, &offered, printed)
}

fn try_x_by_table(
    report: &mut Report,
    numbers: &mut Sequence,
    lender: &mut Lender,
) -> anyhow::Result<()> {
    let offered = Offered {
        prices: table_g(report.rt.alloc())?,
        case: sheet_x(report)?,
    };
    let printed = Printed {
        front: &[(6, 9), (8, 4), (13, 1)],
        answers: &[(Limit::Budget(1), Ok((13, 1)), [0, 0, 1])],
    };
    try_printed(report, numbers, lender, &offered, printed)
}

fn try_nothing_to_do(
    report: &mut Report,
    numbers: &mut Sequence,
    lender: &mut Lender,
) -> anyhow::Result<()> {
    let offered = Offered {
        prices: card_a(report.rt.alloc())?,
        case: sheet_of(report, &[])?,
    };
    let printed = Printed {
        front: &[(0, 0)],
        answers: &[],
    };
    try_printed(report, numbers, lender, &offered, printed)
}

fn try_empty_card(
    report: &mut Report,
    numbers: &mut Sequence,
    lender: &mut Lender,
) -> anyhow::Result<()> {
    let offered = Offered {
        prices: Prices::Card(Vec::new(report.rt.alloc())),
        case: sheet_of(report, &[&[60]])?,
    };
    let printed = Printed {
        front: &[],
        answers: &[(Limit::Budget(0), Err(Told::carrying(9, 0)), [0; 3])],
    };
    try_printed(report, numbers, lender, &offered, printed)
}

// Holds the search's answer to an input against the printed text, and has the input answered.
fn try_input(
    report: &mut Report,
    numbers: &mut Sequence,
    memories: &mut Memories,
    input: &[u8],
    printed: Result<&str, Told>,
) -> anyhow::Result<()> {
    let same = match (key_answer(report.rt.alloc(), input)?, printed) {
        (Some(Ok(text)), Ok(wanted)) => text.as_str() == wanted,
        (Some(Err(told)), Err(wanted)) => told == wanted,
        _ => false,
    };
    report.note_printed(same)?;
    ask_key(report, numbers, memories, input)
}

// Tries all printed cases.
pub(crate) fn try_all_printed(
    report: &mut Report,
    numbers: &mut Sequence,
    lender: &mut Lender,
) -> anyhow::Result<()> {
    try_x_by_card(report, numbers, lender)?;
    try_x_by_table(report, numbers, lender)?;
    try_nothing_to_do(report, numbers, lender)?;
    try_empty_card(report, numbers, lender)?;
    let memories = &mut lender.kept;
    try_input(
        report,
        numbers,
        memories,
        &INPUT,
        Ok("9 260\n0 1\n1 0\n2 1\n"),
    )?;
    let cut = Err(Told::carrying(11, 17));
    try_input(report, numbers, memories, &INPUT[..18], cut)
}
