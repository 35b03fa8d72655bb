// A task, and the limits of a sheet.
ghost use Rattle.std.specs.Prelude.{◌≡◌};
ghost use Rattle.sheets.specs.Tasks.{new_task, stands_in};

pub const MAX_STAGES: usize = 16;

pub const MAX_TASKS: usize = 256;

// A task that is not struck is standing.
#[derive(Clone, Copy, PartialEq, Eq, Debug)]
pub struct Task {
    pub stage: usize,
    pub work: u32,
    pub struck: bool,
}

impl Task {
    // A standing task of this stage and work.
    pub(crate) fn new(stage: usize, work: u32) -> Task
        ensures { result ≡ new_task stage work }
    {
        Task {
            stage,
            work,
            struck: false,
        }
    }

    // Whether the task stands, and in this stage.
    pub fn stands_in(&self, stage: usize) -> bool
        ensures { result ≡ stands_in stage self.now }
    {
        !self.struck && self.stage == stage
    }
}
