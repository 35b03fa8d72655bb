// A sheet with its book, and prices for it.
use crate::book::{Book, Entry};
use crate::draw::{self, Scale};
use crate::kind::Kind;
use crate::report::{Outcome, Question, Report};
use crate::told::Told;
use sheets::{Call, Sheet, Task};
use std::alloc::Global;
use trials::Sequence;

// A sheet as its calls made it, and the book of the same calls.
#[derive(Drop)]
pub(crate) struct Case {
    pub(crate) sheet: Sheet,
    pub(crate) book: Book,
}

fn entry_of(task: &Task) -> Entry {
    Entry {
        stage: task.stage,
        work: task.work,
        struck: task.struck,
    }
}

// Whether the sheet holds what the book says.
pub(crate) fn is_by_the_book(sheet: &Sheet, book: &Book) -> bool {
    let entries = sheet.tasks().iter().map(entry_of);
    sheet.stage_count() == book.stages && entries.eq(book.entries.iter().copied())
}

impl Case {
    pub(crate) fn opened(heap: Global) -> Case {
        Case {
            sheet: Sheet::open(),
            book: Book::opened(heap),
        }
    }

    // Carries a call out, and compares.
    pub(crate) fn call(&mut self, report: &mut Report, call: Call) -> anyhow::Result<()> {
        let answer = self.sheet.perform(call).map_err(Told::of);
        let wanted = self.book.call(call)?;
        report.note(
            Question::Call,
            Outcome {
                same: answer == wanted && is_by_the_book(&self.sheet, &self.book),
                refused: wanted.err(),
            },
        )
    }

    // The same standing tasks, from the last to the first, in the stages from the last to the first: it offers the same
    // bargains.
    pub(crate) fn turned(&self, report: &mut Report) -> anyhow::Result<Case> {
        let mut turned = Case::opened(report.rt.alloc());
        for _ in 0..self.book.stages {
            turned.call(report, Call::Stage)?;
        }
        for entry in self.book.entries.iter().rev() {
            if !entry.struck {
                let stage = self
                    .book
                    .stages
                    .saturating_sub(entry.stage)
                    .saturating_sub(1);
                let work = entry.work;
                turned.call(report, Call::Task { stage, work })?;
            }
        }
        Ok(turned)
    }

    // Carries out so many calls.
    pub(crate) fn draw_calls(
        &mut self,
        report: &mut Report,
        numbers: &mut Sequence,
        kind: Kind,
        scale: Scale,
        count: u32,
    ) -> anyhow::Result<()> {
        for _ in 0..count {
            let call = draw::call(numbers, kind, scale, &self.book);
            self.call(report, call)?;
        }
        Ok(())
    }
}
