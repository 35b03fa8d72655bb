// Sheets written into memory of the caller.
ghost use Rattle.std.specs.Prelude.{◌≡◌, ◌+◌, ◌*◌, ◌≤◌, length, filter};
ghost use Rattle.std.specs.List.{flat_map, sum_by};
ghost use Rattle.texts.specs.Write.{Writes};
ghost use Rattle.numbers.specs.Number.{spelled};
ghost use Rattle.texts.specs.Putting.{Puts};
ghost use Rattle.sheets.specs.Book.{book};
ghost use Rattle.keyfile.specs.Files.{WhatIsWrittenIsReadAgain};
ghost use Rattle.sheets.specs.Tasks.{max_tasks, stands_in};
ghost use Rattle.keyfile.specs.Works.{stage_works, works_by_stage, spelled_stage, spelled_sheet};

use numbers::{number_len, put_number};
use sheets::Sheet;
use texts::TooShort;

// How many tasks of a stage stand.
fn standing_count(sheet: &Sheet, stage: usize) -> usize
    ensures value { result ≡ length (stage_works (book sheet.now).tasks stage) }
    ensures few { result ≤ max_tasks }
{
    sheet
        .tasks()
        .iter()
        .filter(|task| task.stands_in(stage))
        .count()
}

// How many bytes the works of a stage take.
fn works_len(sheet: &Sheet, stage: usize) -> usize
    ensures { result ≡ sum_by (λ task. length (spelled task.work)) (filter (stands_in stage) (book sheet.now).tasks) }
{
    sheet
        .tasks()
        .iter()
        .filter(|task| task.stands_in(stage))
        .map(|task| number_len(task.work))
        .sum()
}

// How many bytes a stage takes.
fn stage_len(sheet: &Sheet, stage: usize) -> usize
    ensures value { result ≡ length (spelled_stage (stage_works (book sheet.now).tasks stage)) }
    ensures few { result ≤ 5 + 5 * max_tasks }
{
    number_len(standing_count(sheet, stage) as u32) + works_len(sheet, stage)
}

// How many bytes the file of a sheet takes.
fn sheet_len(sheet: &Sheet) -> usize
    ensures { result ≡ length (spelled_sheet (works_by_stage (book sheet.now))) }
{
    let stages = sheet.stage_count();
    let mut len = number_len(stages as u32);
    for stage in 0..stages {
        len += stage_len(sheet, stage);
    }
    len
}

// Puts the works of a stage at a place, and returns the place behind them.
#[tactic(auto, using(crate::proofs::OnWorks::works_steps))]
fn put_works(sheet: &Sheet, stage: usize, memory: &mut [u8], at: usize) -> Result<usize, TooShort>
    ensures { Puts memory.old at (flat_map spelled (stage_works (book sheet.now).tasks stage)) memory.new result }
{
    let mut end = at;
    for task in sheet.tasks() {
        if task.stands_in(stage) {
            end = put_number(task.work, memory, end)?;
        }
    }
    Ok(end)
}

// Puts a stage at a place, and returns the place behind it.
fn put_stage(sheet: &Sheet, stage: usize, memory: &mut [u8], at: usize) -> Result<usize, TooShort>
    ensures { Puts memory.old at (spelled_stage (stage_works (book sheet.now).tasks stage)) memory.new result }
{
    let end = put_number(standing_count(sheet, stage) as u32, memory, at)?;
    put_works(sheet, stage, memory, end)
}

// Puts the file of a sheet at the start of the memory, and returns the place behind it.
fn put_sheet(sheet: &Sheet, memory: &mut [u8]) -> Result<usize, TooShort>
    ensures { Puts memory.old 0 (spelled_sheet (works_by_stage (book sheet.now))) memory.new result }
{
    let stages = sheet.stage_count();
    let mut end = put_number(stages as u32, memory, 0)?;
    for stage in 0..stages {
        end = put_stage(sheet, stage, memory, end)?;
    }
    Ok(end)
}

// Writes the file of a sheet at the start of the memory, and returns how many bytes that took: the stage count, then
// for each stage its task count and the works of its standing tasks in number order.
#[tactic(auto, using(crate::proofs::OnFiles::what_is_written_is_read_again))]
pub fn write_sheet(sheet: &Sheet, memory: &mut [u8]) -> Result<usize, TooShort>
    ensures written { Writes (spelled_sheet (works_by_stage (book sheet.now))) memory.old memory.new result }
    ensures read_again { WhatIsWrittenIsReadAgain }
{
    if memory.len() < sheet_len(sheet) {
        return Err(TooShort);
    }
    put_sheet(sheet, memory)
}
