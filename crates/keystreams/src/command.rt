// The command lines of `samebargains`.
ghost use Rattle.std.specs.Prelude.{◌≡◌, ◌≢◌, length};
ghost use Rattle.std.specs.Io.KnownBytes.{Keeps};

use crate::verdicts::write_verdict_on;
use anyhow::Context;
use std::fs;
use std::io::Write;
use std::rt::Files;

const USAGE: &str = "usage: samebargains FIRST SECOND
Compares two files, each a card and a sheet in file numbers with nothing behind them.
Prints `same` where both offer the same bargains; else `first` or `second`, the one that
has the better bargain, with its length and cost. What is refused prints `refused`, which
file, the refusal's number and the place in the file that it is about.
Ends with 0 for the same bargains and for --help, 1 for different ones, 2 for all else.
";

// The exit status of what is refused, misused or cannot be read.
const TROUBLE: u8 = 2;

fn compare_files<R: Files + AllocGlobal, W: Write>(
    rt: &R,
    first: &str,
    second: &str,
    out: &mut W,
) -> anyhow::Result<u8> {
    let first_file = fs::open(rt, first).context(format_args!("{first}"))?;
    let second_file = fs::open(rt, second).context(format_args!("{second}"))?;
    let status = write_verdict_on(rt.alloc(), first_file, second_file, out).context(format_args!(
        "comparing {first} with {second}"
    ))?;
    Ok(status)
}

// Tells an error, unless that fails too.
fn tell<E: Write>(error: anyhow::Error, errors: &mut E) -> u8
    ensures { result ≡ TROUBLE }
{
    let _ = writeln!(errors, "samebargains: {error:#}");
    TROUBLE
}

// Tells how the program is used, unless that fails too.
fn tell_usage<E: Write>(errors: &mut E) -> u8
    ensures { result ≡ TROUBLE }
{
    let _ = errors.write_all(USAGE.as_bytes());
    TROUBLE
}

fn help<W: Write>(out: &mut W) -> anyhow::Result<u8> {
    out.write_all(USAGE.as_bytes())?;
    Ok(0)
}

/// Does what a command line of `samebargains` asks for, its words without the program's name, and returns the exit status
/// (docs/RULES.md, "Program `samebargains`"). Two words are two files, of which the verdict is written to `out`. What is
/// misused or fails is told in `errors`, with status 2.
pub fn same_bargains_command<R: Files + AllocGlobal, W: Write, E: Write>(
    rt: &R,
    words: &[&str],
    out: &mut W,
    errors: &mut E,
) -> u8
    ensures misused { length words.now ≢ 1 → length words.now ≢ 2
        → (result ≡ TROUBLE) × Keeps (W.contents out.old) (W.contents out.new) }
{
    let done = match words {
        [first, second] => compare_files(rt, first, second, out),
        [word] if *word == "--help" => help(out),
        _ => return tell_usage(errors),
    };
    match done {
        Ok(status) => status,
        Err(error) => tell(error, errors),
    }
}
