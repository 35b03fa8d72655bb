// What the questions have to answer, found by trying every assignment.
use crate::batch::Batch;
use crate::kind::NEUTRAL;
use crate::lent::Sizes;
use crate::limit::Limit;
use crate::pair::Pair;
use crate::told::Told;
use std::alloc::{AllocError, Global};

// A cell, with its cost as a plain number.
#[derive(Clone, Copy, Drop, PartialEq, Eq, Debug)]
pub(crate) struct PlainCell {
    pub(crate) reached: bool,
    pub(crate) cost: u64,
}

// The better bargain of two sheets: which sheet has it, and its pair.
#[derive(Clone, Copy, Drop, PartialEq, Eq, Debug)]
pub(crate) enum PlainBetter {
    First(Pair),
    Second(Pair),
}

// All that the questions about a batch rest on.
#[derive(Drop)]
pub(crate) struct Answers {
    pub(crate) batch: Batch,
    // The pairs that assignments have.
    pub(crate) pairs: Vec<Pair>,
    pub(crate) front: Vec<Pair>,
    // The cells that a question needs.
    pub(crate) cells: Vec<PlainCell>,
}

// The pairs that none beats, by rising length.
fn unbeaten(heap: Global, pairs: &[Pair]) -> Result<Vec<Pair>, AllocError> {
    let mut front: Vec<Pair> = pairs
        .iter()
        .filter(|pair| !pairs.iter().any(|other| other.beats(**pair)))
        .copied()
        .collect(heap)?;
    front.sort_unstable_by_key(|pair| pair.length);
    Ok(front)
}

fn cell(pairs: &[Pair], minutes: u32) -> PlainCell {
    let least = pairs
        .iter()
        .filter(|pair| pair.length <= minutes)
        .map(|pair| pair.cost)
        .min();
    PlainCell {
        reached: least.is_some(),
        cost: least.unwrap_or(NEUTRAL),
    }
}

// A row of cells for the stages from each one on, and one behind the last.
fn all_cells(heap: Global, batch: &Batch) -> Result<Vec<PlainCell>, AllocError> {
    let span = batch.span();
    let mut cells = Vec::new(heap);
    for from in 0..=batch.stages {
        let pairs = batch.attained(heap, from)?;
        cells.extend((0..=span).map(|minutes| cell(&pairs, minutes)))?;
    }
    Ok(cells)
}

impl Answers {
    pub(crate) fn of(heap: Global, batch: Batch) -> Result<Answers, AllocError> {
        let pairs = batch.attained(heap, 0)?;
        let front = unbeaten(heap, &pairs)?;
        let cells = all_cells(heap, &batch)?;
        Ok(Answers {
            batch,
            pairs,
            front,
            cells,
        })
    }

    // The cells where they are filled.
    pub(crate) fn cells_if(&self, filled: bool) -> &[PlainCell] {
        if filled { &self.cells } else { &[] }
    }

    // The front where it is written.
    pub(crate) fn front_if(&self, written: bool) -> &[Pair] {
        if written { &self.front } else { &[] }
    }

    pub(crate) fn front_count(&self, sizes: Sizes) -> Result<usize, Told> {
        if sizes.cells < self.cells.len() {
            Err(Told::bare(7))
        } else if sizes.points < self.front.len() {
            Err(Told::bare(8))
        } else {
            Ok(self.front.len())
        }
    }

    // What refuses a question under any limit.
    fn limit_refusal(&self, sizes: Sizes) -> Option<Told> {
        if sizes.cells < self.cells.len() {
            Some(Told::bare(7))
        } else if sizes.plan < self.batch.numbers {
            Some(Told::bare(8))
        } else {
            self.batch.unquoted().map(|task| Told::carrying(9, task))
        }
    }

    // The least length at a cost of at most the limit, and the least cost at that length.
    fn budget(&self, limit: u64) -> Option<Pair> {
        self.pairs
            .iter()
            .filter(|pair| pair.cost <= limit)
            .min_by_key(|pair| (pair.length, pair.cost))
            .copied()
    }

    // The least cost at a length of at most the limit, and the least length at that cost.
    fn deadline(&self, limit: u32) -> Option<Pair> {
        self.pairs
            .iter()
            .filter(|pair| pair.length <= limit)
            .min_by_key(|pair| (pair.cost, pair.length))
            .copied()
    }

    // The best pair within the limit.
    pub(crate) fn best(&self, limit: Limit, sizes: Sizes) -> Result<Pair, Told> {
        if let Some(told) = self.limit_refusal(sizes) {
            return Err(told);
        }
        let best = match limit {
            Limit::Budget(cost) => self.budget(cost),
            Limit::Deadline(minutes) => self.deadline(minutes),
        };
        best.ok_or(Told::bare(10))
    }

    // The shortest pair that no pair of the others is as good as, of that length the cheapest.
    fn unmatched_by(&self, others: &Answers) -> Option<Pair> {
        self.pairs
            .iter()
            .filter(|pair| !others.pairs.iter().any(|other| other.is_within(**pair)))
            .min_by_key(|pair| (pair.length, pair.cost))
            .copied()
    }

    // The better bargain of two sheets, none where for every assignment of either the other has one as good.
    pub(crate) fn better(&self, others: &Answers) -> Option<PlainBetter> {
        let first = self.unmatched_by(others);
        let second = others.unmatched_by(self);
        match (first, second) {
            (Some(pair), Some(other)) if other.precedes(pair) => Some(PlainBetter::Second(other)),
            (Some(pair), _) => Some(PlainBetter::First(pair)),
            (None, other) => other.map(PlainBetter::Second),
        }
    }

    // Whether for every assignment the others have one that is no longer and no dearer.
    fn is_matched_by(&self, others: &Answers) -> bool {
        self.pairs.iter().all(|pair| others.pairs.iter().any(|other| other.is_within(*pair)))
    }

    pub(crate) fn are_the_same_bargains(&self, others: &Answers) -> bool {
        self.is_matched_by(others) && others.is_matched_by(self)
    }
}
