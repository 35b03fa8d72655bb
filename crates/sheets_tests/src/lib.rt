#![tactic(auto)]

// Tests of the sheet at its limits.
#[cfg(test)]
mod tests {
    use refusals::Refusal;
    use sheets::{Call, MAX_STAGES, MAX_TASKS, Sheet, SheetRefusal, Task};
    use std::process::Abort;
    use work::MAX_WORK;

    // A sheet with one stage.
    fn with_stage(rt: &impl Abort) -> Sheet {
        let mut sheet = Sheet::open();
        assert_eq!(rt; sheet.stage(), Ok(0));
        sheet
    }

    #[test]
    fn the_seventeenth_stage_is_refused(rt: HostRuntime) {
        let mut sheet = Sheet::open();
        assert_eq!(rt; sheet.stage_count(), 0);
        for number in 0..16 {
            assert_eq!(rt; sheet.stage(), Ok(number));
        }
        assert_eq!(rt; sheet.stage(), Err(SheetRefusal::Full));
        assert_eq!(rt; sheet.stage_count(), MAX_STAGES);
        assert_eq!(rt; sheet.task(15, 1), Ok(0));
        assert_eq!(rt; sheet.task(16, 1), Err(SheetRefusal::Unknown));
    }

    #[test]
    fn strikes_make_no_room_for_a_task(rt: HostRuntime) {
        let mut sheet = with_stage(&rt);
        for number in 0..256 {
            assert_eq!(rt; sheet.task(0, 1), Ok(number));
            if number % 3 == 0 {
                assert_eq!(rt; sheet.strike(number), Ok(()));
            }
        }
        assert_eq!(rt; sheet.task(0, 1), Err(SheetRefusal::Full));
        assert_eq!(rt; sheet.strike(1), Ok(()));
        assert_eq!(rt; sheet.task(0, 1), Err(SheetRefusal::Full));
        assert_eq!(rt; sheet.task_count(), MAX_TASKS);
    }

    #[test]
    fn work_is_from_one_to_a_million(rt: HostRuntime) {
        let mut sheet = with_stage(&rt);
        assert_eq!(rt; sheet.task(0, 0), Err(SheetRefusal::WorkOutOfRange));
        assert_eq!(rt; sheet.task(0, 1), Ok(0));
        assert_eq!(rt; sheet.task(0, 1_000_000), Ok(1));
        assert_eq!(rt; sheet.task(0, 1_000_001), Err(SheetRefusal::WorkOutOfRange));
        assert_eq!(rt; sheet.rework(0, 0), Err(SheetRefusal::WorkOutOfRange));
        assert_eq!(rt; sheet.rework(0, MAX_WORK), Ok(()));
        assert_eq!(rt;
            sheet.rework(1, u32::MAX),
            Err(SheetRefusal::WorkOutOfRange)
        );
        assert_eq!(rt; sheet.rework(1, 1), Ok(()));
        assert_eq!(rt; works(&sheet), 1_000_001);
    }

    // The sum of all works, struck tasks included.
    fn works(sheet: &Sheet) -> u64 {
        sheet.tasks().iter().fold(0, |sum: u64, task| sum.saturating_add(u64::from(task.work)))
    }

    #[test]
    fn a_struck_task_is_unknown_for_good(rt: HostRuntime) {
        let mut sheet = with_stage(&rt);
        assert_eq!(rt; sheet.strike(0), Err(SheetRefusal::Unknown));
        assert_eq!(rt; sheet.task(0, 5), Ok(0));
        assert_eq!(rt; sheet.strike(0), Ok(()));
        assert_eq!(rt; sheet.strike(0), Err(SheetRefusal::Unknown));
        assert_eq!(rt; sheet.rework(0, 7), Err(SheetRefusal::Unknown));
        assert_eq!(rt; sheet.task(0, 7), Ok(1));
        assert_eq!(rt;
            sheet.get(0),
            Some(Task {
                stage: 0,
                work: 5,
                struck: true
            })
        );
        assert_eq!(rt;
            sheet.get(1),
            Some(Task {
                stage: 0,
                work: 7,
                struck: false
            })
        );
        assert_eq!(rt; sheet.get(2), None);
    }

    #[test]
    fn the_smallest_number_wins(rt: HostRuntime) {
        let mut sheet = with_stage(&rt);
        assert_eq!(rt; sheet.task(1, 0), Err(SheetRefusal::Unknown));
        assert_eq!(rt; sheet.rework(0, 0), Err(SheetRefusal::Unknown));
        assert_eq!(rt; sheet.rework(usize::MAX, 0), Err(SheetRefusal::Unknown));
        for number in 0..256 {
            assert_eq!(rt; sheet.task(0, 9), Ok(number));
        }
        assert_eq!(rt; sheet.task(1, 0), Err(SheetRefusal::Full));
        assert_eq!(rt; sheet.task(0, 0), Err(SheetRefusal::Full));
        assert_eq!(rt; sheet.task(usize::MAX, 9), Err(SheetRefusal::Full));
        assert_eq!(rt; sheet.strike(256), Err(SheetRefusal::Unknown));
        assert_eq!(rt; sheet.rework(255, 10), Ok(()));
        assert_eq!(rt; works(&sheet), 255 * 9 + 10);
    }

    #[test]
    fn refused_calls_leave_the_sheet_fit_for_use(rt: HostRuntime) {
        let mut sheet = Sheet::open();
        for number in 0..1000 {
            assert_eq!(rt; sheet.task(0, 1), Err(SheetRefusal::Unknown));
            assert_eq!(rt; sheet.rework(number, 1), Err(SheetRefusal::Unknown));
            assert_eq!(rt; sheet.strike(number), Err(SheetRefusal::Unknown));
        }
        assert_eq!(rt; sheet.stage(), Ok(0));
        assert_eq!(rt; sheet.task(0, 3), Ok(0));
        for _ in 0..1000 {
            assert_eq!(rt; sheet.task(0, 0), Err(SheetRefusal::WorkOutOfRange));
        }
        assert_eq!(rt; sheet.task(0, 4), Ok(1));
        assert_eq!(rt; sheet.task_count(), 2);
        assert_eq!(rt; works(&sheet), 7);
    }

    #[test]
    fn calls_are_performed_as_values(rt: HostRuntime) {
        let mut sheet = Sheet::open();
        assert_eq!(rt;
            sheet.perform(Call::Task { stage: 0, work: 1 }),
            Err(SheetRefusal::Unknown)
        );
        assert_eq!(rt; sheet.perform(Call::Stage), Ok(Some(0)));
        assert_eq!(rt;
            sheet.perform(Call::Task { stage: 0, work: 2 }),
            Ok(Some(0))
        );
        assert_eq!(rt; sheet.perform(Call::Rework { task: 0, work: 3 }), Ok(None));
        assert_eq!(rt; sheet.perform(Call::Front), Ok(None));
        assert_eq!(rt; sheet.perform(Call::Budget), Ok(None));
        assert_eq!(rt; sheet.perform(Call::Deadline), Ok(None));
        assert_eq!(rt; works(&sheet), 3);
        assert_eq!(rt; sheet.perform(Call::Strike { task: 0 }), Ok(None));
        assert_eq!(rt;
            sheet.perform(Call::Strike { task: 0 }),
            Err(SheetRefusal::Unknown)
        );
    }

    #[test]
    fn a_replay_skips_what_is_refused(rt: HostRuntime) {
        let mut sheet = Sheet::replay(&[
            Call::Task { stage: 0, work: 1 },
            Call::Stage,
            Call::Front,
            Call::Task { stage: 0, work: 20 },
            Call::Task { stage: 1, work: 30 },
            Call::Stage,
            Call::Task { stage: 1, work: 40 },
            Call::Strike { task: 0 },
            Call::Rework { task: 0, work: 50 },
            Call::Rework { task: 1, work: 60 },
        ]);
        assert_eq!(rt; sheet.stage_count(), 2);
        assert_eq!(rt; works(&sheet), 80);
        let tasks = [
            Task {
                stage: 0,
                work: 20,
                struck: true,
            },
            Task {
                stage: 1,
                work: 60,
                struck: false,
            },
        ];
        assert_eq!(rt; sheet.tasks(), tasks.as_slice());
        assert_eq!(rt; sheet.task(1, 1), Ok(2));
    }

    #[test]
    fn refusals_are_told_by_number(rt: HostRuntime) {
        assert_eq!(rt; SheetRefusal::Full.number(), 1);
        assert_eq!(rt; SheetRefusal::Unknown.number(), 2);
        assert_eq!(rt; SheetRefusal::WorkOutOfRange.number(), 3);
        assert_eq!(rt; SheetRefusal::Unknown.carried(), None);
    }
}
