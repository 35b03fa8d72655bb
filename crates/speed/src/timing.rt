// The timing of a case, and what the planner finds in it.
use crate::memory::Memory;
use crate::sums::{cells_sum, plan_sum, points_sum, times_count};
use anyhow::anyhow;
use cells::{MinutesTable, TimedSheet, fill, span};
use model::{Point, PricedSheet};
use planner::{budget, deadline, front};
use sheets::Sheet;
use std::num::NonZeroU32;
use std::time::Instant;
use tariffs::Tariff;
use trials::Amount;

// How often each step is run, and where its time is printed.
#[derive(Clone, Copy)]
pub(crate) struct Timer<'a> {
    pub(crate) rt: &'a HostRuntime,
    pub(crate) runs: NonZeroU32,
}

impl Timer<'_> {
    // Prints the nanoseconds of one run of the step, and returns what the last run answered.
    fn time<A: Drop, F: FnMut() -> anyhow::Result<A>>(
        self,
        step: &str,
        mut run: F,
    ) -> anyhow::Result<A>
        requires { F.IsAlwaysCallable run }
    {
        let rt = self.rt;
        let runs = self.runs.get();
        let start = Instant::now(rt)?;
        let mut answer = run()?;
        for _ in 1..runs {
            answer = run()?;
        }
        let nanoseconds = start.elapsed(rt)?.as_nanos() / u128::from(runs);
        println!(rt; "{step} {nanoseconds}")?;
        Ok(answer)
    }
}

// A sheet under a tariff, and the memory in which it is planned.
#[derive(Drop)]
struct Case<'a, C, T> {
    timer: Timer<'a>,
    priced: PricedSheet<'a, T>,
    memory: Memory<C>,
}

impl<C: Amount, T: Tariff<Cost = C>> Case<'_, C, T> {
    fn time_fill(&mut self) -> anyhow::Result<()> {
        let rt = self.timer.rt;
        self.timer.time("fill", || {
            let mut table = MinutesTable::new();
            let timed = TimedSheet::of_standing(&self.priced, &mut table);
            fill(&timed, &mut self.memory.cells).map_err(|_| anyhow!("too few cells"))
        })?;
        let mut table = MinutesTable::new();
        let timed = TimedSheet::of_standing(&self.priced, &mut table);
        let times = times_count(&timed);
        let span = span(&timed);
        println!(rt; "times {times}, span {span}")?;
        let sum = cells_sum(&self.memory.cells);
        println!(rt; "cells {sum}")?;
        Ok(())
    }

    // Returns the point in the middle of the front.
    fn time_front(&mut self) -> anyhow::Result<Point<C>> {
        let rt = self.timer.rt;
        let count = self.timer.time("answer", || {
            front(
                &self.priced,
                &mut self.memory.cells,
                &mut self.memory.points,
            )
            .map_err(|_| anyhow!("the front is refused"))
        })?;
        let points = self.memory.points.get(..count).unwrap_or_default();
        let sum = points_sum(points);
        println!(rt; "front of {count}, points {sum}")?;
        points
            .get(count / 2)
            .copied()
            .ok_or_else(|| anyhow!("there are no points"))
    }

    fn time_budget(&mut self, limit: C) -> anyhow::Result<()> {
        let point = self.timer.time("plan", || {
            budget(
                &self.priced,
                limit,
                &mut self.memory.cells,
                &mut self.memory.plan,
            )
            .map_err(|_| anyhow!("the budget is refused"))
        })?;
        self.print_answer("budget", point)
    }

    fn ask_deadline(&mut self, limit: u32) -> anyhow::Result<()> {
        let point = deadline(
            &self.priced,
            limit,
            &mut self.memory.cells,
            &mut self.memory.plan,
        )
        .map_err(|_| anyhow!("the deadline is refused"))?;
        self.print_answer("deadline", point)
    }

    fn print_answer(&self, question: &str, point: Point<C>) -> anyhow::Result<()> {
        let rt = self.timer.rt;
        let length = point.length;
        let cost = point.cost.amount();
        let sum = plan_sum(&self.memory.plan);
        println!(rt; "{question} {length} {cost}, plan {sum}")?;
        Ok(())
    }
}

// Times each step on a case. The budget and the deadline are those of the middle of the front.
pub(crate) fn time_case<C: Amount, T: Tariff<Cost = C>>(
    timer: Timer,
    sheet: &Sheet,
    tariff: &T,
) -> anyhow::Result<()> {
    let priced = PricedSheet { sheet, tariff };
    let memory = Memory::enough(timer.rt.alloc(), &priced)?;
    let mut case = Case {
        timer,
        priced,
        memory,
    };
    case.time_fill()?;
    let middle = case.time_front()?;
    case.time_budget(middle.cost)?;
    case.ask_deadline(middle.length)
}
