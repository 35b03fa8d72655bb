// The four calls that alter a sheet.
ghost use Rattle.std.specs.Prelude.{◌≡◌, true, [], is_err};
ghost use Rattle.std.specs.List.{slice_get};
ghost use Rattle.refusals.specs.Answer.{answer_of};
ghost use Rattle.sheets.specs.Tasks.{stands};
ghost use Rattle.sheets.specs.Refusals.{sheet_told};
ghost use Rattle.sheets.specs.Book.{book, opened, checked, answer, step, numbered, numberless};
ghost use Rattle.sheets.specs.History.{Known, KnownFurther};

use crate::call::Call;
use crate::refusal::SheetRefusal;
use crate::sheet::Sheet;
use crate::task::{MAX_STAGES, MAX_TASKS, Task};
use work::work_in_range;

impl Sheet {
    pub fn open() -> Sheet
        ensures empty { book result ≡ opened }
        ensures known { Known result [] }
    {
        Sheet {
            stages: 0,
            count: 0,
            tasks: [Task::new(0, 1); MAX_TASKS],
        }
    }

    // Whether the number is that of a standing task.
    fn stands(&self, task: usize) -> bool
        ensures { result ≡ stands (slice_get (book self.now).tasks task) }
    {
        self.get(task).is_some_and(|task| !task.struck)
    }

    // Refuses a call with the smallest number that applies.
    fn check(&self, call: Call) -> Result<(), SheetRefusal>
        ensures { answer_of sheet_told result ≡ checked (book self.now) call }
    {
        match call {
            Call::Stage if self.stage_count() >= MAX_STAGES => Err(SheetRefusal::Full),
            Call::Task { .. } if self.task_count() >= MAX_TASKS => Err(SheetRefusal::Full),
            Call::Task { stage, .. } if stage >= self.stage_count() => Err(SheetRefusal::Unknown),
            Call::Rework { task, .. } | Call::Strike { task } if !self.stands(task) => {
                Err(SheetRefusal::Unknown)
            }
            Call::Task { work, .. } | Call::Rework { work, .. } if !work_in_range(work) => {
                Err(SheetRefusal::WorkOutOfRange)
            }
            Call::Stage | Call::Task { .. } | Call::Rework { .. } | Call::Strike { .. } => Ok(()),
            Call::Front | Call::Budget | Call::Deadline => Ok(()),
        }
    }

    // Appends an empty stage.
    #[tactic(auto, using(crate::proofs::Histories::known_further))]
    pub fn stage(&mut self) -> Result<usize, SheetRefusal>
        ensures answer { answer_of sheet_told (numbered result) ≡ answer (book self.old) Call.Stage }
        ensures after { book self.new ≡ step (book self.old) Call.Stage }
        ensures known { KnownFurther self.old Call.Stage self.new }
        ensures refused_alters_nothing { is_err result ≡ true → self.new ≡ self.old }
    {
        self.check(Call::Stage)?;
        self.stages += 1;
        Ok(self.stages - 1)
    }

    // Adds a task.
    #[tactic(auto, using(crate::proofs::Histories::known_further))]
    pub fn task(&mut self, stage: usize, work: u32) -> Result<usize, SheetRefusal>
        ensures answer { answer_of sheet_told (numbered result) ≡ answer (book self.old) (Call.Task stage work) }
        ensures after { book self.new ≡ step (book self.old) (Call.Task stage work) }
        ensures known { KnownFurther self.old (Call.Task stage work) self.new }
        ensures refused_alters_nothing { is_err result ≡ true → self.new ≡ self.old }
    {
        self.check(Call::Task { stage, work })?;
        let number = self.count;
        self.tasks[number] = Task::new(stage, work);
        self.count += 1;
        Ok(number)
    }

    // Gives a standing task another work.
    #[tactic(auto, using(crate::proofs::Histories::known_further, crate::proofs::Sheets::rework_written))]
    pub fn rework(&mut self, task: usize, work: u32) -> Result<(), SheetRefusal>
        ensures answer { answer_of sheet_told (numberless result) ≡ answer (book self.old) (Call.Rework task work) }
        ensures after { book self.new ≡ step (book self.old) (Call.Rework task work) }
        ensures known { KnownFurther self.old (Call.Rework task work) self.new }
        ensures refused_alters_nothing { is_err result ≡ true → self.new ≡ self.old }
    {
        self.check(Call::Rework { task, work })?;
        self.tasks[task].work = work;
        Ok(())
    }

    // Strikes a standing task. Its number is never used again.
    #[tactic(auto, using(crate::proofs::Histories::known_further, crate::proofs::Sheets::strike_written))]
    pub fn strike(&mut self, task: usize) -> Result<(), SheetRefusal>
        ensures answer { answer_of sheet_told (numberless result) ≡ answer (book self.old) (Call.Strike task) }
        ensures after { book self.new ≡ step (book self.old) (Call.Strike task) }
        ensures known { KnownFurther self.old (Call.Strike task) self.new }
        ensures refused_alters_nothing { is_err result ≡ true → self.new ≡ self.old }
    {
        self.check(Call::Strike { task })?;
        self.tasks[task].struck = true;
        Ok(())
    }
}
