// Two sheets of one cost kind, tried together.
use crate::answers::Answers;
use crate::draw::about;
use crate::drawn::card_of;
use crate::given::GivenTariff;
use crate::kind::Kind;
use crate::lent::{Memories, Memory, Sizes};
use crate::limit::Limit;
use crate::offered::Offered;
use crate::prices::Prices;
use crate::questions::{Asked, ask_bargains, ask_better, ask_front, ask_limit, ask_quotes};
use crate::report::Report;
use costs::{Cents, Grade};
use model::PricedSheet;
use tariffs::{NeverQuotes, QuoteTable, Tariff};
use trials::{Amount, Sequence};

// How often a front is asked, and how many limits are drawn, each in other memory.
const FRONTS: u32 = 3;

const LIMITS: u32 = 10;

// Two sheets, what has to be answered to questions about them, and limits that are tried whatever is drawn.
#[derive(Clone, Copy)]
pub(crate) struct Trial<'a> {
    pub(crate) first: &'a Offered,
    pub(crate) second: &'a Offered,
    pub(crate) answers: &'a Answers,
    pub(crate) others: &'a Answers,
    pub(crate) limits: &'a [Limit],
}

// Memory of about the sizes that questions about a sheet, or about two, need.
fn sizes(numbers: &mut Sequence, answers: &Answers, others: &Answers) -> Sizes {
    Sizes {
        cells: about(numbers, answers.cells.len().max(others.cells.len())),
        points: about(numbers, answers.front.len()),
        second_points: about(numbers, others.front.len()),
        plan: about(numbers, answers.batch.numbers),
    }
}

pub(crate) fn try_quotes<T: Tariff>(
    report: &mut Report,
    tariff: &T,
    offered: &Offered,
) -> anyhow::Result<()>
where
    T::Cost: Amount,
{
    for work in [0, 1_000_001, u32::MAX] {
        ask_quotes(report, tariff, &offered.prices, work)?;
    }
    for entry in &offered.case.book.entries {
        ask_quotes(report, tariff, &offered.prices, entry.work)?;
    }
    Ok(())
}

// Asks all questions about the first sheet.
fn try_questions<T: Tariff>(
    report: &mut Report,
    numbers: &mut Sequence,
    memory: &mut Memory<T::Cost>,
    asked: &Asked<T>,
    limits: &[Limit],
) -> anyhow::Result<()>
where
    T::Cost: Amount,
{
    let answers = asked.answers;
    for _ in 0..FRONTS {
        let sizes = sizes(numbers, answers, answers);
        ask_front(report, memory, asked, sizes)?;
    }
    for limit in limits {
        let sizes = Sizes::exactly(answers);
        ask_limit(report, memory, asked, *limit, sizes)?;
    }
    for _ in 0..LIMITS {
        let limit = Limit::drawn(numbers, &answers.pairs);
        let sizes = sizes(numbers, answers, answers);
        ask_limit(report, memory, asked, limit, sizes)?;
    }
    Ok(())
}

impl<'a> Trial<'a> {
    // Tries the questions about the first sheet, and compares it with the second.
    fn try_under<T: Tariff, U: Tariff<Cost = T::Cost>>(
        &self,
        report: &mut Report,
        numbers: &mut Sequence,
        memory: &mut Memory<T::Cost>,
        first: &T,
        second: &U,
    ) -> anyhow::Result<()>
    where
        T::Cost: Amount,
    {
        let asked = Asked {
            priced: PricedSheet {
                sheet: &self.first.case.sheet,
                tariff: first,
            },
            answers: self.answers,
        };
        let other = Asked {
            priced: PricedSheet {
                sheet: &self.second.case.sheet,
                tariff: second,
            },
            answers: self.others,
        };
        try_quotes(report, first, self.first)?;
        try_questions(report, numbers, memory, &asked, self.limits)?;
        let lent = sizes(numbers, self.answers, self.others);
        ask_bargains(report, memory, &asked, &other, lent)?;
        let lent = sizes(numbers, self.answers, self.others);
        ask_better(report, memory, &asked, &other, lent)
    }

    // Takes the tariff in cents that has the second sheet's prices.
    fn try_cents<T: Tariff<Cost = Cents>>(
        &self,
        report: &mut Report,
        numbers: &mut Sequence,
        memory: &mut Memory<Cents>,
        first: &T,
    ) -> anyhow::Result<()> {
        match &self.second.prices {
            Prices::Card(lines) => {
                self.try_under(report, numbers, memory, first, &card_of(lines))
            }
            Prices::Given(charges) => {
                let second = GivenTariff { charges };
                self.try_under(report, numbers, memory, first, &second)
            }
            Prices::Table(_) | Prices::Never(_) => {
                let second: NeverQuotes<Cents> = NeverQuotes::new();
                self.try_under(report, numbers, memory, first, &second)
            }
        }
    }

    // Takes the tariff in grades that has the second sheet's prices.
    fn try_grades<T: Tariff<Cost = Grade>>(
        &self,
        report: &mut Report,
        numbers: &mut Sequence,
        memory: &mut Memory<Grade>,
        first: &T,
    ) -> anyhow::Result<()> {
        match &self.second.prices {
            Prices::Table(rows) => {
                self.try_under(report, numbers, memory, first, &QuoteTable::over(rows))
            }
            Prices::Card(_) | Prices::Given(_) | Prices::Never(_) => {
                let second: NeverQuotes<Grade> = NeverQuotes::new();
                self.try_under(report, numbers, memory, first, &second)
            }
        }
    }

    // Tries both sheets under the tariffs that have their prices, in these memories.
    pub(crate) fn try_in(
        &self,
        report: &mut Report,
        numbers: &mut Sequence,
        memories: &mut Memories,
    ) -> anyhow::Result<()> {
        let cents = &mut memories.cents;
        let grades = &mut memories.grades;
        match &self.first.prices {
            Prices::Card(lines) => self.try_cents(report, numbers, cents, &card_of(lines)),
            Prices::Given(charges) => {
                self.try_cents(report, numbers, cents, &GivenTariff { charges })
            }
            Prices::Table(rows) => {
                self.try_grades(report, numbers, grades, &QuoteTable::over(rows))
            }
            Prices::Never(Kind::Cents) => {
                let first: NeverQuotes<Cents> = NeverQuotes::new();
                self.try_cents(report, numbers, cents, &first)
            }
            Prices::Never(Kind::Grades) => {
                let first: NeverQuotes<Grade> = NeverQuotes::new();
                self.try_grades(report, numbers, grades, &first)
            }
        }
    }
}
