// The verdict on two inputs, from two readers to a writer.
ghost use Rattle.std.specs.Prelude.{◌≡◌, IfOk, OnOk, IfSome, vec_len};
ghost use Rattle.std.specs.Io.KnownBytes.{Appends};
ghost use Rattle.keyanswer.specs.Better.{better_heard, verdict_on, verdict_line, verdict_status};

use crate::deciding::read_deciding;
use costs::Cents;
use keyanswer::{
    CompareRefusal, INPUT_BYTES, MOST_CELLS, MOST_POINTS, VERDICT_BYTES, better_batch, exit_status,
    verdict_to,
};
use model::{Better, Cell, Point};
use std::alloc::{AllocError, Global};
use std::io;
use std::io::{Read, Write};

// Memory for the cells of every sheet.
fn cells_for_all(alloc: Global) -> Result<Vec<Cell<Cents>>, AllocError>
    ensures { IfOk result (λ cells. vec_len cells ≡ MOST_CELLS) }
{
    Vec::from_elem(alloc, Cell::of(None), MOST_CELLS)
}

// Memory for the points of every front.
fn points_for_all(alloc: Global) -> Result<Vec<Point<Cents>>, AllocError>
    ensures { IfOk result (λ points. vec_len points ≡ MOST_POINTS) }
{
    let unwritten = Point {
        length: 0,
        cost: Cents::new(0),
    };
    Vec::from_elem(alloc, unwritten, MOST_POINTS)
}

// The verdict on two inputs, with memory enough for every two sheets.
fn judge(
    alloc: Global,
    first: &[u8],
    second: &[u8],
) -> Result<Result<Option<Better<Cents>>, CompareRefusal>, AllocError>
    ensures { IfOk result (λ verdict. better_heard verdict ≡ verdict_on first.now second.now) }
{
    let mut cells = cells_for_all(alloc)?;
    let mut first_points = points_for_all(alloc)?;
    let mut second_points = points_for_all(alloc)?;
    Ok(better_batch(
        first,
        second,
        cells.as_mut_slice(),
        first_points.as_mut_slice(),
        second_points.as_mut_slice(),
    ))
}

/// Reads two inputs, a card and a sheet each, and writes the line of the verdict on them, and nothing else; returns the
/// exit status that tells it, as `cmp` does (docs/RULES.md, "Program `samebargains`").
///
/// At most 1,024 bytes are read of each, since these decide. It has memory for every two sheets, so refusals 7 and 8 do not
/// come. Where a reader, the writer or the memory for the sheets fails, so does it.
pub fn write_verdict_on<R: Read + Drop, S: Read + Drop, W: Write>(
    alloc: Global,
    mut first: R,
    mut second: S,
    writer: &mut W,
) -> io::Result<u8>
    ensures line { OnOk result
        (IfSome (R.remaining first) (λ first_input.
        IfSome (S.remaining second) (λ second_input.
        Appends (W.contents writer.old) (W.contents writer.new)
        (verdict_line (verdict_on first_input second_input))))) }
    ensures status { IfOk result (λ status.
        IfSome (R.remaining first) (λ first_input.
        IfSome (S.remaining second) (λ second_input.
        status ≡ verdict_status (verdict_on first_input second_input)))) }
{
    let mut first_buffer = [0; INPUT_BYTES];
    let mut second_buffer = [0; INPUT_BYTES];
    let first_count = read_deciding(&mut first, &mut first_buffer)?;
    let second_count = read_deciding(&mut second, &mut second_buffer)?;
    let first_input = &first_buffer[..first_count];
    let second_input = &second_buffer[..second_count];
    let verdict = judge(alloc, first_input, second_input)?;
    let mut text = [0; VERDICT_BYTES];
    let count = verdict_to(&verdict, &mut text);
    writer.write_all(&text[..count])?;
    Ok(exit_status(&verdict))
}
