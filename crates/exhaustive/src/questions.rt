// The questions of the planner, asked and compared.
use crate::answers::{Answers, PlainBetter, PlainCell};
use crate::lent::{Contents, Memory, Sizes, Written, pair_of};
use crate::limit::Limit;
use crate::pair::Pair;
use crate::prices::{MOST_MACHINES, Offer, Prices};
use crate::report::{Outcome, Question, Report};
use crate::told::Told;
use model::{Better, PricedSheet};
use planner::{better_bargain, budget, deadline, front, same_bargains};
use std::alloc::{AllocError, Global};
use tariffs::Tariff;
use trials::Amount;

// A sheet under a tariff, and what its questions have to answer.
#[derive_where(Clone, Copy)]
pub(crate) struct Asked<'a, T> {
    pub(crate) priced: PricedSheet<'a, T>,
    pub(crate) answers: &'a Answers,
}

fn offer_of<T: Tariff>(tariff: &T, machine: usize, work: u32) -> Option<Offer>
where
    T::Cost: Amount,
{
    tariff.quote(machine, work).map(|quote| {
        Offer {
            machine,
            minutes: quote.minutes,
            cost: quote.cost.amount(),
        }
    })
}

// Asks what every machine quotes for the work, and some that are not there.
pub(crate) fn ask_quotes<T: Tariff>(
    report: &mut Report,
    tariff: &T,
    prices: &Prices,
    work: u32,
) -> anyhow::Result<()>
where
    T::Cost: Amount,
{
    let same = tariff.machines() == prices.machines()
        && (0..=MOST_MACHINES)
            .chain([u32::MAX as usize, usize::MAX])
            .all(|machine| offer_of(tariff, machine, work) == prices.offer(machine, work));
    let refused = None;
    report.note(Question::Quotes, Outcome { same, refused })
}

pub(crate) fn ask_front<T: Tariff>(
    report: &mut Report,
    memory: &mut Memory<T::Cost>,
    asked: &Asked<T>,
    sizes: Sizes,
) -> anyhow::Result<()>
where
    T::Cost: Amount,
{
    let heap = report.rt.alloc();
    let before = memory.lend(heap, sizes)?;
    let answer = front(&asked.priced, &mut memory.cells, &mut memory.points).map_err(Told::of);
    let wanted = asked.answers.front_count(sizes);
    let filled = wanted != Err(Told::bare(7));
    let written = Written {
        cells: asked.answers.cells_if(filled),
        points: asked.answers.front_if(wanted.is_ok()),
        second_points: &[],
        plan: &[],
    };
    let same = answer == wanted && memory.holds(heap, &before, &written)?;
    let refused = wanted.err();
    report.note(Question::Front, Outcome { same, refused })
}

// The plan of an answer, if it has one.
pub(crate) fn plan_wanted(
    heap: Global,
    answers: &Answers,
    wanted: Result<Pair, Told>,
) -> Result<Vec<u8>, AllocError> {
    match wanted {
        Ok(pair) => Ok(answers.batch.plan(heap, pair)?.unwrap_or(Vec::new(heap))),
        Err(_) => Ok(Vec::new(heap)),
    }
}

fn ask_planner<T: Tariff>(
    memory: &mut Memory<T::Cost>,
    priced: &PricedSheet<T>,
    limit: Limit,
) -> Result<Pair, Told>
where
    T::Cost: Amount,
{
    let answer = match limit {
        Limit::Budget(cost) => {
            let most = T::Cost::of(cost);
            budget(priced, most, &mut memory.cells, &mut memory.plan)
        }
        Limit::Deadline(minutes) => {
            deadline(priced, minutes, &mut memory.cells, &mut memory.plan)
        }
    };
    answer.map(pair_of).map_err(Told::of)
}

pub(crate) fn ask_limit<T: Tariff>(
    report: &mut Report,
    memory: &mut Memory<T::Cost>,
    asked: &Asked<T>,
    limit: Limit,
    sizes: Sizes,
) -> anyhow::Result<()>
where
    T::Cost: Amount,
{
    let heap = report.rt.alloc();
    let before = memory.lend(heap, sizes)?;
    let answer = ask_planner(memory, &asked.priced, limit);
    let wanted = asked.answers.best(limit, sizes);
    let filled = wanted.is_ok() || wanted == Err(Told::bare(10));
    let plan = plan_wanted(heap, asked.answers, wanted)?;
    let written = Written {
        cells: asked.answers.cells_if(filled),
        points: &[],
        second_points: &[],
        plan: &plan,
    };
    let same = answer == wanted
        && memory.holds(heap, &before, &written)?
        && wanted
            .ok()
            .is_none_or(|pair| asked.answers.batch.pair_under(&plan) == Some(pair));
    let refused = wanted.err();
    report.note(limit.question(), Outcome { same, refused })
}

// Two sheets that are compared, and how much memory is lent for it.
#[derive(Clone, Copy)]
pub(crate) struct Compared<'a> {
    pub(crate) first: &'a Answers,
    pub(crate) second: &'a Answers,
    pub(crate) sizes: Sizes,
}

impl<'a> Compared<'a> {
    fn has_cells(&self) -> bool {
        self.sizes.cells >= self.first.cells.len() && self.sizes.cells >= self.second.cells.len()
    }

    fn holds_first(&self) -> bool {
        self.sizes.points >= self.first.front.len()
    }

    fn holds_second(&self) -> bool {
        self.sizes.second_points >= self.second.front.len()
    }

    // What refuses the comparison.
    fn refusal(&self) -> Option<Told> {
        if !self.has_cells() {
            Some(Told::bare(7))
        } else if !self.holds_first() || !self.holds_second() {
            Some(Told::bare(8))
        } else {
            None
        }
    }

    pub(crate) fn verdict(&self) -> Result<bool, Told> {
        match self.refusal() {
            Some(told) => Err(told),
            None => Ok(self.first.are_the_same_bargains(self.second)),
        }
    }

    fn better(&self) -> Result<Option<PlainBetter>, Told> {
        match self.refusal() {
            Some(told) => Err(told),
            None => Ok(self.first.better(self.second)),
        }
    }

    // The cells that the comparison leaves: the first sheet's, and the second's over them.
    fn cells_left(&self, heap: Global) -> Result<Vec<PlainCell>, AllocError> {
        let again = self.second.cells_if(self.has_cells() && self.holds_first());
        let behind = self
            .first
            .cells_if(self.has_cells())
            .get(again.len()..)
            .unwrap_or_default();
        again.iter().chain(behind).copied().collect(heap)
    }

    // Whether memory holds what the comparison leaves.
    fn is_left_in<C: Amount>(
        &self,
        heap: Global,
        memory: &Memory<C>,
        before: &Contents,
    ) -> Result<bool, AllocError> {
        let cells = self.cells_left(heap)?;
        let written = Written {
            cells: &cells,
            points: self.first.front_if(self.has_cells() && self.holds_first()),
            second_points: self.second.front_if(self.refusal().is_none()),
            plan: &[],
        };
        memory.holds(heap, before, &written)
    }
}

pub(crate) fn ask_bargains<T: Tariff, U: Tariff<Cost = T::Cost>>(
    report: &mut Report,
    memory: &mut Memory<T::Cost>,
    first: &Asked<T>,
    second: &Asked<U>,
    sizes: Sizes,
) -> anyhow::Result<()>
where
    T::Cost: Amount,
{
    let heap = report.rt.alloc();
    let before = memory.lend(heap, sizes)?;
    let answer = same_bargains(
        &first.priced,
        &second.priced,
        &mut memory.cells,
        &mut memory.points,
        &mut memory.second_points,
    )
    .map_err(Told::of);
    let compared = Compared {
        first: first.answers,
        second: second.answers,
        sizes,
    };
    let wanted = compared.verdict();
    let same = answer == wanted && compared.is_left_in(heap, memory, &before)?;
    report.note_verdict(Question::Bargains, wanted, same)
}

fn plain_better<C: Amount>(better: Better<C>) -> PlainBetter {
    match better {
        Better::First(point) => PlainBetter::First(pair_of(point)),
        Better::Second(point) => PlainBetter::Second(pair_of(point)),
    }
}

// Asks which sheet has the better bargain.
pub(crate) fn ask_better<T: Tariff, U: Tariff<Cost = T::Cost>>(
    report: &mut Report,
    memory: &mut Memory<T::Cost>,
    first: &Asked<T>,
    second: &Asked<U>,
    sizes: Sizes,
) -> anyhow::Result<()>
where
    T::Cost: Amount,
{
    let heap = report.rt.alloc();
    let before = memory.lend(heap, sizes)?;
    let answer = better_bargain(
        &first.priced,
        &second.priced,
        &mut memory.cells,
        &mut memory.points,
        &mut memory.second_points,
    )
    .map(|better| better.map(plain_better))
    .map_err(Told::of);
    let compared = Compared {
        first: first.answers,
        second: second.answers,
        sizes,
    };
    let wanted = compared.better();
    let same = answer == wanted && compared.is_left_in(heap, memory, &before)?;
    let refused = wanted.err();
    report.note(Question::Better, Outcome { same, refused })
}
