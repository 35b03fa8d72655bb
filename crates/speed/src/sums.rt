// Sums of what the planner found, by which two planners are compared.
use cells::{TimedSheet, quoted_times};
use model::{Cell, Point};
use tariffs::Tariff;
use trials::Amount;

fn mixed(sum: u64, number: u64) -> u64 {
    sum.wrapping_mul(31).wrapping_add(number)
}

pub(crate) fn cells_sum<C: Amount>(cells: &[Cell<C>]) -> u64 {
    cells.iter().fold(0, |sum, cell| {
        mixed(mixed(sum, u64::from(cell.reached)), cell.cost.amount())
    })
}

pub(crate) fn points_sum<C: Amount>(points: &[Point<C>]) -> u64 {
    points.iter().fold(0, |sum, point| {
        mixed(mixed(sum, u64::from(point.length)), point.cost.amount())
    })
}

pub(crate) fn plan_sum(plan: &[u8]) -> u64 {
    plan.iter()
        .fold(0, |sum, machine| mixed(sum, u64::from(*machine)))
}

fn times_in_stage<T: Tariff>(timed: &TimedSheet<T>, stage: usize) -> usize {
    let times = quoted_times(timed, stage);
    times.iter().filter(|quoted| **quoted).count()
}

// How many times are quoted, counted anew in each stage.
pub(crate) fn times_count<T: Tariff>(timed: &TimedSheet<T>) -> usize {
    (0..timed.priced.sheet.stage_count()).fold(0usize, |count, stage| {
        count.saturating_add(times_in_stage(timed, stage))
    })
}
