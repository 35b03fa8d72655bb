// Prints the answers to the inputs in `data`, each behind its name.
#![tactic(auto)]

use keystreams::write_answer;
use std::fs;
use std::io::Write;

const NAMES: [&str; 24] = [
    "budget",
    "cut",
    "front",
    "deadline",
    "no_stages",
    "empty_front",
    "refused_1_stage",
    "refused_1_task",
    "refused_3",
    "refused_3_above",
    "refused_4",
    "refused_5_speed",
    "refused_5_rate",
    "refused_7",
    "refused_9",
    "refused_10",
    "refused_10_deadline",
    "refused_11",
    "refused_12",
    "refused_12_fifth",
    "refused_13",
    "refused_14",
    "longest",
    "longest_and_more",
];

fn print_answer(rt: &HostRuntime, name: &str) -> anyhow::Result<()> {
    let mut text = Vec::new(rt.alloc());
    write_answer(fs::open(rt, name)?, &mut text)?;
    println!(rt; "{name}:")?;
    rt.stdout().write_all(&text)?;
    Ok(())
}

fn run(rt: &HostRuntime) -> anyhow::Result<()> {
    for name in NAMES {
        print_answer(rt, name)?;
    }
    Ok(())
}

fn main(rt: HostRuntime) -> anyhow::Result<()> {
    run(&rt)
}
