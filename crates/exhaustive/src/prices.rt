// What machines quote, by the rules of the rate card and of the quote table.
use crate::book::is_work;
use crate::given::{Charge, GIVEN_MACHINES, WORK_CLASSES};
use crate::kind::{Kind, MOST_CENTS};
use crate::told::Told;
use tariffs::Row;

pub(crate) const MOST_MACHINES: usize = 32;

const MOST_MINUTES: u32 = 1_440;

const MOST_ROWS: usize = 256;

const MOST_GRADE: u32 = 15;

const MINUTES_AN_HOUR: u64 = 60;

// A line of a card as it is asked for: any numbers.
#[derive(Clone, Copy, Drop, PartialEq, Eq, Debug)]
pub(crate) struct Terms {
    pub(crate) speed: u32,
    pub(crate) rate: u32,
}

// A machine that quotes a work.
#[derive(Clone, Copy, Drop, PartialEq, Eq, Debug)]
pub(crate) struct Offer {
    pub(crate) machine: usize,
    pub(crate) minutes: u32,
    pub(crate) cost: u64,
}

#[derive(Drop, Debug)]
pub(crate) enum Prices {
    // The lines that a card has taken.
    Card(Vec<Terms>),
    // The rows over which a table stands.
    Table(Vec<Row>),
    // The charges of the tariff that is none of the library's.
    Given(Vec<Charge>),
    // No quote at all, in one of the cost kinds.
    Never(Kind),
}

impl Terms {
    fn are_in_range(self) -> bool {
        (1..=10_000).contains(&self.speed) && self.rate <= 1_000_000
    }
}

// The least whole number that is no less than the quotient.
fn rounded_up(number: u64, divisor: u64) -> u64 {
    let whole = number.checked_div(divisor).unwrap_or(0);
    if whole.saturating_mul(divisor) == number {
        whole
    } else {
        whole.saturating_add(1)
    }
}

// What a card of these lines tells of a further one: its number, or the refusal.
pub(crate) fn line_answer(lines: &[Terms], line: Terms) -> Result<usize, Told> {
    if lines.len() == MOST_MACHINES {
        Err(Told::bare(4))
    } else if line.are_in_range() {
        Ok(lines.len())
    } else {
        Err(Told::bare(5))
    }
}

fn is_bad(row: &Row) -> bool {
    row.machine as usize >= MOST_MACHINES
        || !is_work(row.work)
        || row.minutes == 0
        || row.minutes > MOST_MINUTES
        || row.grade > MOST_GRADE
}

// What the check tells of these rows.
pub(crate) fn rows_answer(rows: &[Row]) -> Result<(), Told> {
    match rows.iter().position(is_bad) {
        Some(row) => Err(Told::carrying(6, row)),
        None if rows.len() > MOST_ROWS => Err(Told::carrying(6, MOST_ROWS)),
        None => Ok(()),
    }
}

fn card_offer(lines: &[Terms], machine: usize, work: u32) -> Option<Offer> {
    let line = lines.get(machine)?;
    let minutes = rounded_up(u64::from(work), u64::from(line.speed));
    let product = u64::from(line.rate).saturating_mul(minutes);
    let minutes = u32::try_from(minutes).ok()?;
    (minutes <= MOST_MINUTES).then_some(Offer {
        machine,
        minutes,
        cost: rounded_up(product, MINUTES_AN_HOUR),
    })
}

fn table_offer(rows: &[Row], machine: usize, work: u32) -> Option<Offer> {
    rows_answer(rows).ok()?;
    let row = rows
        .iter()
        .find(|row| row.machine as usize == machine && row.work == work)?;
    Some(Offer {
        machine,
        minutes: row.minutes,
        cost: u64::from(row.grade),
    })
}

fn given_offer(charges: &[Charge], machine: usize, work: u32) -> Option<Offer> {
    let class = work as usize % WORK_CLASSES;
    let place = machine.saturating_mul(WORK_CLASSES).saturating_add(class);
    let charge = charges.get(place)?;
    let is_quoted = machine < GIVEN_MACHINES && (1..=MOST_MINUTES).contains(&charge.minutes);
    is_quoted.then_some(Offer {
        machine,
        minutes: charge.minutes,
        cost: charge.cents.min(MOST_CENTS),
    })
}

impl Prices {
    pub(crate) fn kind(&self) -> Kind {
        match self {
            Prices::Card(_) | Prices::Given(_) => Kind::Cents,
            Prices::Table(_) => Kind::Grades,
            Prices::Never(kind) => *kind,
        }
    }

    pub(crate) fn machines(&self) -> usize {
        match self {
            Prices::Card(lines) => lines.len(),
            Prices::Given(_) => GIVEN_MACHINES,
            Prices::Table(_) | Prices::Never(_) => MOST_MACHINES,
        }
    }

    pub(crate) fn offer(&self, machine: usize, work: u32) -> Option<Offer> {
        if !is_work(work) {
            return None;
        }
        match self {
            Prices::Card(lines) => card_offer(lines, machine, work),
            Prices::Table(rows) => table_offer(rows, machine, work),
            Prices::Given(charges) => given_offer(charges, machine, work),
            Prices::Never(_) => None,
        }
    }
}
