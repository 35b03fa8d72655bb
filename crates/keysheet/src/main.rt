// `keysheet` reads a card, a sheet and a question from standard input and prints the answer.
#![tactic(auto)]

use keystreams::write_answer;
use std::env;

const USAGE: &str = "usage: keysheet < INPUT
Reads file numbers (unsigned LEB128, shortest form) from standard input:
  a card      line count, then speed and rate of each line
  a sheet     stage count, then for each stage its task count and works
  a question  0 front; 1 budget, then cents; 2 deadline, then minutes
Prints `length cost` for each point of the front or for the result, and under a
limit `task machine` for each standing task. What is refused prints `refused`, the
refusal's number and the task or the place in the input that it is about.
";

fn run(rt: &HostRuntime) -> anyhow::Result<()> {
    if env::args(rt)?.count() > 1 {
        rt.print(USAGE)?;
        return Ok(());
    }
    write_answer(rt.stdin(), &mut rt.stdout())?;
    Ok(())
}

fn main(rt: HostRuntime) -> anyhow::Result<()> {
    run(&rt)
}
