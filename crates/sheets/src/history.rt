// Calls carried out as values, and the sheets that lists of calls make.
ghost use Rattle.std.specs.Prelude.{◌≡◌, true, is_err};
ghost use Rattle.refusals.specs.Answer.{answer_of};
ghost use Rattle.sheets.specs.Refusals.{sheet_told};
ghost use Rattle.sheets.specs.Book.{book, answer, step};
ghost use Rattle.sheets.specs.History.{Known, KnownFurther, EverySheetHasKnownSomeCalls, EveryBookIsSound, TaskNumbersAreNeverReused, TasksKeepTheirStages, StruckTasksStayAsTheyAre, OtherTasksStayAsTheyAre, RefusedCallsCanBeLeftOut};
ghost use Rattle.sheets.specs.Applies.{TheSmallestRefusalIsTold};

use crate::call::Call;
use crate::refusal::SheetRefusal;
use crate::sheet::Sheet;

impl Sheet {
    // Carries a call out; `stage` and `task` give the number of what they added.
    #[tactic(auto, using(crate::proofs::Histories::known_further))]
    pub fn perform(&mut self, call: Call) -> Result<Option<usize>, SheetRefusal>
        ensures answer { answer_of sheet_told result ≡ answer (book self.old) call }
        ensures after { book self.new ≡ step (book self.old) call }
        ensures known { KnownFurther self.old call self.new }
        ensures refused_alters_nothing { is_err result ≡ true → self.new ≡ self.old }
    {
        match call {
            Call::Stage => self.stage().map(Some),
            Call::Task { stage, work } => self.task(stage, work).map(Some),
            Call::Rework { task, work } => self.rework(task, work).map(|()| None),
            Call::Strike { task } => self.strike(task).map(|()| None),
            Call::Front | Call::Budget | Call::Deadline => Ok(None),
        }
    }

    // The sheet that has known these calls, refused ones included.
    pub fn replay(calls: &[Call]) -> Sheet
        ensures known { Known result calls.now }
        ensures every_sheet_known { EverySheetHasKnownSomeCalls }
        ensures smallest_refusal_told { TheSmallestRefusalIsTold }
        ensures books_sound { EveryBookIsSound }
        ensures numbers_never_reused { TaskNumbersAreNeverReused }
        ensures stages_kept { TasksKeepTheirStages }
        ensures struck_tasks_kept { StruckTasksStayAsTheyAre }
        ensures other_tasks_kept { OtherTasksStayAsTheyAre }
        ensures refused_left_out { RefusedCallsCanBeLeftOut }
    {
        let mut sheet = Sheet::open();
        for call in calls {
            let _ = sheet.perform(*call);
        }
        sheet
    }
}
