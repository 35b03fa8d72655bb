// What a sheet holds.
ghost use Rattle.std.specs.Prelude.{◌≡◌, ℕ, ◌<◌, ◌≤◌, length, IfSome, slice_index_or};
ghost use Rattle.std.specs.List.{slice_get};
ghost use Rattle.sheets.specs.Tasks.{SoundTask, max_stages, max_tasks};
ghost use Rattle.sheets.specs.Book.{book};

use crate::sheet::Sheet;
use crate::task::Task;

impl Sheet {
    pub fn stage_count(&self) -> usize
        ensures value { result ≡ (book self.now).stages }
        ensures few { result ≤ max_stages }
    {
        self.stages
    }

    pub fn task_count(&self) -> usize
        ensures value { result ≡ length (book self.now).tasks }
        ensures few { result ≤ max_tasks }
    {
        self.count
    }

    // The task of this number, struck or standing.
    pub fn get(&self, task: usize) -> Option<Task>
        ensures value { result ≡ slice_get (book self.now).tasks task }
        ensures sound { IfSome result (λ found. SoundTask (book self.now).stages found) }
    {
        self.tasks().get(task).copied()
    }

    // All tasks, by number.
    pub fn tasks(&self) -> &[Task]
        ensures value { result.now ≡ (book self.now).tasks }
        ensures few { length result.now ≤ max_tasks }
        ensures sound { (i : ℕ) (d : Task) → i < length result.now → SoundTask (book self.now).stages (slice_index_or result.now i d) }
    {
        &self.tasks[0..self.count]
    }
}
