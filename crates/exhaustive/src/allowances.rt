// Allowance lists, and the plans that go by them.
use crate::assignments::STAGES;
use crate::batch::Batch;
use crate::kind::NEUTRAL;
use crate::pair::Pair;
use std::alloc::{AllocError, Global};

// The byte of a struck task.
pub(crate) const STRUCK: u8 = 255;

// An allowance for each of the first stages, and the minutes that are left for the others.
#[derive(Clone, Copy, Drop)]
pub(crate) struct List {
    minutes: [u32; STAGES],
    left: u32,
}

impl List {
    fn and(self, stage: usize, allowance: u32) -> List {
        let mut further = self;
        if let Some(minutes) = further.minutes.get_mut(stage) {
            *minutes = allowance;
        }
        further.left = self.left.saturating_sub(allowance);
        further
    }

    fn allowance(&self, stage: usize) -> u32 {
        self.minutes.get(stage).copied().unwrap_or(0)
    }
}

// Each of these lists with each allowance for a further stage, in order.
fn extended(heap: Global, lists: &[List], stage: usize) -> Result<Vec<List>, AllocError> {
    let mut further = Vec::new(heap);
    for list in lists {
        for allowance in 0..=list.left {
            further.push(list.and(stage, allowance))?;
        }
    }
    Ok(further)
}

impl Batch {
    // All allowance lists that come to so many minutes, in order: where two differ first, the smaller allowance precedes.
    fn lists(&self, heap: Global, minutes: u32) -> Result<Vec<List>, AllocError> {
        let none = List {
            minutes: [0; STAGES],
            left: minutes,
        };
        let mut lists = vec![in heap; none; 1]?;
        for stage in 0..self.stages {
            lists = extended(heap, &lists, stage)?;
        }
        lists.retain(|list| list.left == 0);
        Ok(lists)
    }

    // What a stage costs within the allowance.
    fn stage_cost(&self, stage: usize, allowance: u32) -> Option<u64> {
        self.standing
            .iter()
            .filter(|task| task.stage == stage)
            .try_fold(NEUTRAL, |sum, task| {
                let offer = task.cheapest(allowance)?;
                Some(self.kind.join(sum, offer.cost))
            })
    }

    // What the stages cost together under a list.
    fn list_cost(&self, list: &List) -> Option<u64> {
        (0..self.stages).try_fold(NEUTRAL, |sum, stage| {
            let cost = self.stage_cost(stage, list.allowance(stage))?;
            Some(self.kind.join(sum, cost))
        })
    }

    // The plan of a pair: by the first list that comes to its length and cost, each task on its cheapest machine.
    pub(crate) fn plan(&self, heap: Global, pair: Pair) -> Result<Option<Vec<u8>>, AllocError> {
        let lists = self.lists(heap, pair.length)?;
        let first = lists
            .iter()
            .find(|list| self.list_cost(list) == Some(pair.cost));
        match first {
            Some(list) => self.plan_under(heap, list).map(Some),
            None => Ok(None),
        }
    }

    fn plan_under(&self, heap: Global, list: &List) -> Result<Vec<u8>, AllocError> {
        let mut plan = vec![in heap; STRUCK; self.numbers]?;
        for task in &self.standing {
            let offer = task.cheapest(list.allowance(task.stage));
            if let (Some(byte), Some(offer)) = (plan.get_mut(task.number), offer) {
                *byte = u8::try_from(offer.machine).unwrap_or(STRUCK);
            }
        }
        Ok(plan)
    }
}
