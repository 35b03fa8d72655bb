// A sheet under a tariff: its standing tasks with all that machines quote for them.
use crate::assignments::STAGES;
use crate::book::{Book, Entry};
use crate::kind::Kind;
use crate::prices::{MOST_MACHINES, Offer, Prices};
use std::alloc::{AllocError, Global};

const MOST_ASSIGNMENTS: usize = 1_100;

const MOST_LISTS: usize = 20_000;

// A standing task, and the machines that quote it, by number.
#[derive(Drop)]
pub(crate) struct Standing {
    pub(crate) number: usize,
    pub(crate) stage: usize,
    pub(crate) offers: Vec<Offer>,
}

#[derive(Drop)]
pub(crate) struct Batch {
    pub(crate) kind: Kind,
    pub(crate) stages: usize,
    // How many numbers tasks have, those of struck ones among them.
    pub(crate) numbers: usize,
    pub(crate) standing: Vec<Standing>,
}

impl Standing {
    fn priced(
        heap: Global,
        number: usize,
        entry: &Entry,
        prices: &Prices,
    ) -> Result<Standing, AllocError> {
        let offers = (0..MOST_MACHINES)
            .filter_map(|machine| prices.offer(machine, entry.work))
            .collect(heap)?;
        Ok(Standing {
            number,
            stage: entry.stage,
            offers,
        })
    }

    fn greatest_time(&self) -> u32 {
        self.offers
            .iter()
            .map(|offer| offer.minutes)
            .max()
            .unwrap_or(0)
    }

    // The cheapest offer within the allowance, of the lowest machine among equals.
    pub(crate) fn cheapest(&self, allowance: u32) -> Option<Offer> {
        self.offers
            .iter()
            .filter(|offer| offer.minutes <= allowance)
            .min_by_key(|offer| offer.cost)
            .copied()
    }
}

impl Batch {
    pub(crate) fn priced(heap: Global, book: &Book, prices: &Prices) -> Result<Batch, AllocError> {
        let mut standing = Vec::new(heap);
        for (number, entry) in book.entries.iter().enumerate() {
            if !entry.struck {
                standing.push(Standing::priced(heap, number, entry, prices)?)?;
            }
        }
        Ok(Batch {
            kind: prices.kind(),
            stages: book.stages,
            numbers: book.entries.len(),
            standing,
        })
    }

    fn greatest_time(&self, stage: usize) -> u32 {
        self.standing
            .iter()
            .filter(|task| task.stage == stage)
            .map(|task| task.greatest_time())
            .max()
            .unwrap_or(0)
    }

    // The sum over stages of the greatest time quoted to a standing task there.
    pub(crate) fn span(&self) -> u32 {
        (0..self.stages).fold(0, |sum: u32, stage| {
            sum.saturating_add(self.greatest_time(stage))
        })
    }

    // The lowest standing task that no machine quotes.
    pub(crate) fn unquoted(&self) -> Option<usize> {
        self.standing
            .iter()
            .find(|task| task.offers.is_empty())
            .map(|task| task.number)
    }

    // The cells that a question needs.
    pub(crate) fn cells_needed(&self) -> usize {
        let columns = (self.span() as usize).saturating_add(1);
        self.stages.saturating_add(1).saturating_mul(columns)
    }

    // Whether there are so few assignments and allowance lists that all of them can be tried.
    pub(crate) fn can_be_tried(&self) -> bool {
        let assignments = self.standing.iter().fold(1, |product: usize, task| {
            product.saturating_mul(task.offers.len().max(1))
        });
        let lists = (1..self.stages).fold(1, |product: usize, _stage| {
            product.saturating_mul((self.span() as usize).saturating_add(1))
        });
        self.stages < STAGES && assignments <= MOST_ASSIGNMENTS && lists <= MOST_LISTS
    }
}
