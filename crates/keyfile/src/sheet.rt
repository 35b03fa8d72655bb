// Sheets read from a file.
ghost use Rattle.std.specs.Prelude.{◌≡◌, true, is_err, OnOk};
ghost use Rattle.refusals.specs.Answer.{answer_of};
ghost use Rattle.numbers.specs.Input.{value_of, left_by};
ghost use Rattle.numbers.specs.Reader.{input_of};
ghost use Rattle.sheets.specs.Book.{book};
ghost use Rattle.keyfile.specs.Files.{WhatIsReadWasSoWritten, AcceptedFilesAreAsWritten, EachSheetHasOneFile, WhatIsReadIsKnown};
ghost use Rattle.keyfile.specs.Works.{works_by_stage, spelled_sheet, KnownByItsFile};
ghost use Rattle.keyfile.specs.Reading.{ReadAs, giving};
ghost use Rattle.keyfile.specs.Refusal.{file_told};
ghost use Rattle.keyfile.specs.Sheet.{task_in, stage_in, sheet_in, file_in};

use crate::{FileRefusal, check_end};
use numbers::Reader;
use sheets::Sheet;

fn read_task(reader: &mut Reader, sheet: &mut Sheet, stage: usize) -> Result<(), FileRefusal>
    ensures { ReadAs file_told (task_in stage (book sheet.old) (input_of reader.old)) result (book sheet.new) (input_of reader.new) }
{
    let place = reader.place();
    let work = reader.number()?;
    sheet
        .task(stage, work)
        .map_err(|refusal| FileRefusal::Sheet { refusal, place })?;
    Ok(())
}

#[tactic(auto, using(crate::proofs::OnReadings::repeated_more))]
fn read_stage(reader: &mut Reader, sheet: &mut Sheet) -> Result<(), FileRefusal>
    ensures { ReadAs file_told (stage_in (book sheet.old) (input_of reader.old)) result (book sheet.new) (input_of reader.new) }
{
    let place = reader.place();
    let count = reader.number()?;
    let stage = sheet
        .stage()
        .map_err(|refusal| FileRefusal::Sheet { refusal, place })?;
    for _ in 0..count {
        read_task(reader, sheet, stage)?;
    }
    Ok(())
}

// Reads a sheet and leaves what stands behind it: the stage count, then for each stage its task count and works. The
// sheet that is opened for it goes to the lent place; where the reading is refused, that keeps its sheet.
#[tactic(auto, using(crate::proofs::OnReadings::repeated_more, crate::proofs::OnFiles::what_is_read_was_so_written, crate::proofs::OnFiles::what_is_read_is_known))]
pub fn read_sheet_from(reader: &mut Reader, sheet: &mut Sheet) -> Result<(), FileRefusal>
    ensures answer { answer_of file_told (giving (book sheet.new) result) ≡ value_of (sheet_in (input_of reader.old)) }
    ensures after { input_of reader.new ≡ left_by (sheet_in (input_of reader.old)) (input_of reader.old) }
    ensures refused_alters_nothing { is_err result ≡ true → sheet.new ≡ sheet.old }
    ensures known { OnOk result (KnownByItsFile sheet.new) }
    ensures read_as_written { WhatIsReadWasSoWritten }
    ensures read_is_known { WhatIsReadIsKnown }
{
    let mut ahead = *reader;
    let count = ahead.number()?;
    let mut opened = Sheet::open();
    for _ in 0..count {
        read_stage(&mut ahead, &mut opened)?;
    }
    *reader = ahead;
    *sheet = opened;
    Ok(())
}

// Reads a file that holds a sheet and nothing behind it.
#[tactic(auto, using(crate::proofs::OnFiles::accepted_files_are_as_written, crate::proofs::OnFiles::each_sheet_has_one_file))]
pub fn read_sheet(bytes: &[u8], sheet: &mut Sheet) -> Result<(), FileRefusal>
    ensures answer { answer_of file_told (giving (book sheet.new) result) ≡ value_of (file_in bytes.now) }
    ensures refused_alters_nothing { is_err result ≡ true → sheet.new ≡ sheet.old }
    ensures known { OnOk result (KnownByItsFile sheet.new) }
    ensures as_written { OnOk result (bytes.now ≡ spelled_sheet (works_by_stage (book sheet.new))) }
    ensures accepted_as_written { AcceptedFilesAreAsWritten }
    ensures one_file { EachSheetHasOneFile }
{
    let mut reader = Reader::new(bytes);
    let mut read = *sheet;
    read_sheet_from(&mut reader, &mut read)?;
    check_end(&reader)?;
    *sheet = read;
    Ok(())
}
