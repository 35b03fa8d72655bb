// Work: the amount that a task asks of a machine, in units.
#![tactic(auto)]

ghost use Rattle.std.specs.Prelude.{◌≡◌};
ghost use Rattle.work.specs.Work.{work_in_range};

// A task has at least one unit of work and at most this.
pub const MAX_WORK: u32 = 1_000_000;

pub fn work_in_range(work: u32) -> bool
    ensures { result ≡ work_in_range work }
{
    (1..=MAX_WORK).contains(&work)
}
