// `speed CASE RUNS` times the planner on a case, each step so many times.
#![tactic(auto)]

mod cases;
mod memory;
mod sums;
mod timing;

use crate::cases::{Shape, table_rows, table_sheet};
use crate::timing::{Timer, time_case};
use std::env;
use std::num::NonZeroU32;
use tariffs::QuoteTable;
use texts::read_number;
use worked::{card_a, sheet_x};

const USAGE: &str = "usage: speed CASE RUNS
  CASE  worked, usual, largest or grades;
        minutes-180, -360, -720 or -1440, by the longest time quoted;
        machines-4, -8, -16 or -32
  RUNS  how often each step is run, from 1
Prints the nanoseconds of one run of each step, and what it found:
  fill    the cells are filled
  answer  the front is asked: the cells are filled and the points read
  plan    a budget is asked: the cells are filled, the pair is read, the plan is written
";

fn print_usage(rt: &HostRuntime) -> anyhow::Result<()> {
    rt.print(USAGE)?;
    Ok(())
}

fn time_named(timer: Timer, name: &str) -> anyhow::Result<()> {
    match name {
        "worked" => time_case(timer, &sheet_x(), &card_a()),
        "grades" => time_case(timer, &table_sheet(), &QuoteTable::over(&table_rows())),
        _ => {
            match Shape::named(name) {
                Some(shape) => time_case(timer, &shape.sheet(), &shape.card()),
                None => print_usage(timer.rt),
            }
        }
    }
}

fn run(rt: &HostRuntime) -> anyhow::Result<()> {
    let mut arguments = env::args(rt)?.skip(1);
    let (Some(name), Some(count)) = (arguments.next(), arguments.next()) else {
        return print_usage(rt);
    };
    match read_number(count.as_bytes()).and_then(NonZeroU32::new) {
        Some(runs) => time_named(Timer { rt, runs }, name.as_str()),
        None => print_usage(rt),
    }
}

fn main(rt: HostRuntime) -> anyhow::Result<()> {
    run(&rt)
}
