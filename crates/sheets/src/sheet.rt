// The sheet itself: a table of fixed size, so that no call allocates.
ghost use Rattle.std.specs.Prelude.{◌≡◌, ◌≤◌, length};
ghost use Rattle.sheets.specs.Tasks.{SoundTasks, max_stages, max_tasks};

use crate::task::{MAX_TASKS, Task};

// The first `count` places of the table are the tasks, by number; the others hold nothing that counts.
#[derive(Clone, Copy)]
pub struct Sheet {
    pub(crate) stages: usize,
    pub(crate) count: usize,
    pub(crate) tasks: [Task; MAX_TASKS],
    ghost whole: { length tasks ≡ max_tasks },
    ghost few: { stages ≤ max_stages },
    ghost fits: { count ≤ max_tasks },
    ghost sound: { SoundTasks stages count tasks },
}
