// `samebargains FIRST SECOND` tells whether two files, a card and a sheet each, offer the same bargains.
#![tactic(auto)]

use keystreams::same_bargains_command;
use std::env;
use std::process::ExitCode;

// The exit status where the system fails the program.
const TROUBLE: u8 = 2;

fn run(rt: &HostRuntime) -> anyhow::Result<u8> {
    let words = env::args(rt)?.skip(1).collect::<Vec<String>>(rt.alloc())?;
    let words = words
        .iter()
        .map(|word| word.as_str())
        .collect::<Vec<&str>>(rt.alloc())?;
    Ok(same_bargains_command(rt, &words, &mut rt.stdout(), &mut rt.stderr()))
}

fn main(rt: HostRuntime) -> ExitCode {
    match run(&rt) {
        Ok(status) => ExitCode::from(status),
        Err(error) => {
            let _ = eprintln!(rt; "samebargains: {error:#}");
            ExitCode::from(TROUBLE)
        }
    }
}
