// All assignments, and the pairs of length and cost that they have.
use crate::batch::{Batch, Standing};
use crate::kind::{Kind, NEUTRAL};
use crate::pair::Pair;
use crate::prices::Offer;
use std::alloc::{AllocError, Global};

// More stages than any sheet has of which all assignments are tried.
pub(crate) const STAGES: usize = 4;

// The stage times and the cost of an assignment of some tasks.
#[derive(Clone, Copy, Drop)]
pub(crate) struct Assigned {
    times: [u32; STAGES],
    cost: u64,
}

impl Assigned {
    pub(crate) fn no_task() -> Assigned {
        Assigned {
            times: [0; STAGES],
            cost: NEUTRAL,
        }
    }

    // The assignment that also gives a task of the stage the machine of the offer.
    pub(crate) fn and(self, kind: Kind, stage: usize, offer: Offer) -> Assigned {
        let mut further = self;
        if let Some(time) = further.times.get_mut(stage) {
            *time = (*time).max(offer.minutes);
        }
        further.cost = kind.join(self.cost, offer.cost);
        further
    }

    pub(crate) fn pair(self) -> Pair {
        Pair {
            length: self
                .times
                .iter()
                .fold(0, |sum: u32, time| sum.saturating_add(*time)),
            cost: self.cost,
        }
    }
}

// Each of these assignments with each machine for a further task.
fn extended(
    heap: Global,
    kind: Kind,
    assigned: &[Assigned],
    task: &Standing,
) -> Result<Vec<Assigned>, AllocError> {
    let mut further = Vec::new(heap);
    for before in assigned {
        for offer in &task.offers {
            further.push(before.and(kind, task.stage, *offer))?;
        }
    }
    Ok(further)
}

impl Batch {
    // The pairs of all assignments of the stages from this one on, each pair once.
    pub(crate) fn attained(&self, heap: Global, from: usize) -> Result<Vec<Pair>, AllocError> {
        let mut assigned = vec![in heap; Assigned::no_task(); 1]?;
        for task in &self.standing {
            if task.stage >= from {
                assigned = extended(heap, self.kind, &assigned, task)?;
            }
        }
        let mut pairs: Vec<Pair> = assigned.iter().map(|all| all.pair()).collect(heap)?;
        pairs.sort_unstable_by_key(|pair| (pair.length, pair.cost));
        pairs.dedup();
        Ok(pairs)
    }

    // The pair of a plan, if it gives every standing task a machine that quotes it.
    pub(crate) fn pair_under(&self, plan: &[u8]) -> Option<Pair> {
        let assigned = self
            .standing
            .iter()
            .try_fold(Assigned::no_task(), |assigned, task| {
                let machine = usize::from(*plan.get(task.number)?);
                let offer = task.offers.iter().find(|offer| offer.machine == machine)?;
                Some(assigned.and(self.kind, task.stage, *offer))
            })?;
        Some(assigned.pair())
    }
}
