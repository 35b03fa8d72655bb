// A sheet's book, kept from the calls alone.
use crate::told::Told;
use sheets::Call;
use std::alloc::{AllocError, Global};

const MOST_STAGES: usize = 16;

const MOST_TASKS: usize = 256;

const MOST_WORK: u32 = 1_000_000;

#[derive(Clone, Copy, Drop, PartialEq, Eq, Debug)]
pub(crate) struct Entry {
    pub(crate) stage: usize,
    pub(crate) work: u32,
    pub(crate) struck: bool,
}

#[derive(Drop, Debug)]
pub(crate) struct Book {
    pub(crate) stages: usize,
    pub(crate) entries: Vec<Entry>,
}

impl Entry {
    pub(crate) fn stands_in(&self, stage: usize) -> bool {
        self.stage == stage && !self.struck
    }
}

pub(crate) fn is_work(work: u32) -> bool {
    0 < work && work <= MOST_WORK
}

impl Book {
    pub(crate) fn opened(heap: Global) -> Book {
        Book {
            stages: 0,
            entries: Vec::new(heap),
        }
    }

    pub(crate) fn standing_count(&self) -> usize {
        self.entries.iter().filter(|entry| !entry.struck).count()
    }

    fn is_full(&self, call: Call) -> bool {
        match call {
            Call::Stage => self.stages == MOST_STAGES,
            Call::Task { .. } => self.entries.len() == MOST_TASKS,
            _ => false,
        }
    }

    fn is_unknown(&self, call: Call) -> bool {
        match call {
            Call::Task { stage, .. } => stage >= self.stages,
            Call::Rework { task, .. } | Call::Strike { task } => {
                self.entries.get(task).is_none_or(|entry| entry.struck)
            }
            _ => false,
        }
    }

    fn asks_no_work(call: Call) -> bool {
        match call {
            Call::Task { work, .. } | Call::Rework { work, .. } => !is_work(work),
            _ => false,
        }
    }

    // The smallest number that applies.
    fn refusal(&self, call: Call) -> Option<Told> {
        if self.is_full(call) {
            Some(Told::bare(1))
        } else if self.is_unknown(call) {
            Some(Told::bare(2))
        } else if Self::asks_no_work(call) {
            Some(Told::bare(3))
        } else {
            None
        }
    }

    // Follows a call that is not refused. Returns the number of what it adds.
    fn follow(&mut self, call: Call) -> Result<Option<usize>, AllocError> {
        match call {
            Call::Stage => {
                self.stages = self.stages.saturating_add(1);
                Ok(Some(self.stages.saturating_sub(1)))
            }
            Call::Task { stage, work } => {
                self.entries.push(Entry {
                    stage,
                    work,
                    struck: false,
                })?;
                Ok(Some(self.entries.len().saturating_sub(1)))
            }
            Call::Rework { task, work } => {
                if let Some(entry) = self.entries.get_mut(task) {
                    entry.work = work;
                }
                Ok(None)
            }
            Call::Strike { task } => {
                if let Some(entry) = self.entries.get_mut(task) {
                    entry.struck = true;
                }
                Ok(None)
            }
            Call::Front | Call::Budget | Call::Deadline => Ok(None),
        }
    }

    // What the call returns. A refused call leaves the book alone.
    pub(crate) fn call(&mut self, call: Call) -> Result<Result<Option<usize>, Told>, AllocError> {
        match self.refusal(call) {
            Some(told) => Ok(Err(told)),
            None => self.follow(call).map(Ok),
        }
    }
}
