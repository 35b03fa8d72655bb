// Prints what command lines of `samebargains` write and with what status they end, on the files in `data`.
#![tactic(auto)]

use keystreams::same_bargains_command;

const COMMANDS: [&[&str]; 12] = [
    &["two_machines.batch", "three_machines.batch"],
    &["two_machines.batch", "fast_machine.batch"],
    &["fast_machine.batch", "two_machines.batch"],
    &["most_cells.batch", "most_cells.batch"],
    &["cut.batch", "two_machines.batch"],
    &["two_machines.batch", "cut.batch"],
    &["longer.batch", "cut.batch"],
    &["two_machines.batch", "very_long.batch"],
    &["missing.batch", "two_machines.batch"],
    &["two_machines.batch"],
    &["two_machines.batch", "two_machines.batch", "cut.batch"],
    &["--help"],
];

fn print_command(rt: &HostRuntime, words: &[&str]) -> anyhow::Result<()> {
    let mut out = Vec::new(rt.alloc());
    let mut errors = Vec::new(rt.alloc());
    let status = same_bargains_command(rt, words, &mut out, &mut errors);
    let (out, errors) = (String::from_utf8(out)?, String::from_utf8(errors)?);
    println!(rt; "{words:?}")?;
    println!(rt; "status {status}, output {out:?}")?;
    println!(rt; "errors {errors:?}")?;
    Ok(())
}

fn run(rt: &HostRuntime) -> anyhow::Result<()> {
    for words in COMMANDS {
        print_command(rt, words)?;
    }
    Ok(())
}

fn main(rt: HostRuntime) -> anyhow::Result<()> {
    run(&rt)
}
