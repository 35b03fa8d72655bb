// Compares the planner with one that tries every assignment.
#![tactic(auto)]

mod allowances;
mod answers;
mod assignments;
mod batch;
mod book;
mod case;
mod draw;
mod drawn;
mod files;
mod given;
mod kind;
mod lent;
mod limit;
mod offered;
mod pair;
mod prices;
mod printed;
mod questions;
mod report;
mod sheets_drawn;
mod told;
mod tries;

use crate::printed::try_all_printed;
use crate::report::Report;
use crate::sheets_drawn::{Lender, try_next};
use anyhow::anyhow;
use std::env;
use texts::read_number;
use trials::Sequence;

const USAGE: &str = "usage: exhaustive [SEED]
Compares the planner with one that tries every assignment, on the printed cases and on sheets that look random.
  SEED  a number; another one gives other sheets. With it ten times as many are tried
Prints how often each question was asked and each refusal met, and how many sheets, questions and differences there were.
";

const SHEETS: u32 = 20_000;

const FIRST_SEED: u32 = 1;

fn compare(rt: &HostRuntime, seed: u32, sheets: u32) -> anyhow::Result<()> {
    let mut report = Report::begun(rt);
    let mut numbers = Sequence::behind(seed);
    let mut lender = Lender::new(rt.alloc());
    try_all_printed(&mut report, &mut numbers, &mut lender)?;
    for _ in 0..sheets {
        try_next(&mut report, &mut numbers, &mut lender)?;
    }
    report.print()?;
    if report.differences > 0 {
        return Err(anyhow!("the planner differs"));
    }
    Ok(())
}

fn run(rt: &HostRuntime) -> anyhow::Result<()> {
    let mut arguments = env::args(rt)?.skip(1);
    let Some(argument) = arguments.next() else {
        return compare(rt, FIRST_SEED, SHEETS);
    };
    match (read_number(argument.as_bytes()), arguments.next()) {
        (Some(seed), None) => compare(rt, seed, 10 * SHEETS),
        _ => {
            rt.print(USAGE)?;
            Ok(())
        }
    }
}

fn main(rt: HostRuntime) -> anyhow::Result<()> {
    run(&rt)
}
