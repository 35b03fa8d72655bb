//! `charges WORK SPEED RATE [SPEED RATE ..]` prints what each machine on these terms quotes for the work.
#![tactic(auto)]

ghost use Rattle.std.specs.Prelude.{OnOk};
ghost use Rattle.std.specs.Io.KnownBytes.{Appends};
ghost use Rattle.hire.specs.Answer.{hire_text};

use hire::{HIRE_TEXT_BYTES, Terms, write_hire};
use std::io::Write;
use std::process::ExitCode;
use std::{env, io};
use texts::read_number;

const USAGE: &str = "usage: charges WORK SPEED RATE [SPEED RATE ..]
  WORK   units of work, 1 to 1,000,000
  SPEED  units a minute of a machine, 1 to 10,000
  RATE   its rate in cents an hour, 0 to 1,000,000
Prints a line for each of at most 32 machines, from 0 on: its number, its minutes and
its cents, or `none` where it needs more than 1,440 minutes. A number out of range and
a 33rd machine print `refused`, the refusal's number (3 for the work, 4 for the 33rd
machine, 5 for a speed or a rate) and which argument it is about, of a machine too many
its speed. Ends with status 0, or 2 where it is used in another way than this.
";

// The status of a program that is used in another way than its usage says.
const MISUSED: u8 = 2;

// The arguments as numbers, or none where one is no number.
fn read_arguments(rt: &HostRuntime) -> anyhow::Result<Option<Vec<u32>>> {
    let numbers = env::args(rt)?
        .skip(1)
        .map(|argument| read_number(argument.as_bytes()))
        .collect::<Option<Vec<u32>>>(rt.alloc())?;
    Ok(numbers)
}

// Writes the lines of a hire and nothing else.
fn write_answer<W: Write>(work: u32, terms: &[Terms], out: &mut W) -> io::Result<()>
    ensures { OnOk result
        (Appends (W.contents out.old) (W.contents out.new) (hire_text work terms.now)) }
{
    let mut text = [0; HIRE_TEXT_BYTES];
    let written = write_hire(work, terms, &mut text);
    out.write_all(&text[..written])
}

// Prints the quotes for a work, or why they are refused; each machine's terms are a speed and a rate.
fn print_answer(rt: &HostRuntime, work: u32, pairs: &[[u32; 2]]) -> anyhow::Result<()> {
    let terms = pairs
        .iter()
        .map(|[speed, rate]| Terms {
            speed: *speed,
            rate: *rate,
        })
        .collect::<Vec<_>>(rt.alloc())?;
    write_answer(work, &terms, &mut rt.stdout())?;
    Ok(())
}

fn main(rt: HostRuntime) -> anyhow::Result<ExitCode> {
    let numbers = read_arguments(&rt)?;
    if let Some([work, offers @ ..]) = numbers.as_deref()
        && let (pairs, []) = offers.as_chunks()
        && !pairs.is_empty()
    {
        print_answer(&rt, *work, pairs)?;
        return Ok(ExitCode::SUCCESS);
    }
    rt.stderr().write_all(USAGE.as_bytes())?;
    Ok(ExitCode::from(MISUSED))
}
