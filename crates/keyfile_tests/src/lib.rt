#![tactic(auto)]

// Tests of numbers, cards and sheets in files.
#[cfg(test)]
mod tests {
    use keyfile::{FileRefusal, Layer, read_card, read_sheet, read_sheet_from, write_sheet};
    use numbers::{NumberRefusal, Reader};
    use refusals::Refusal;
    use sheets::{Call, Sheet, SheetRefusal};
    use std::process::Abort;
    use tariffs::{CardRefusal, Tariff};
    use texts::TooShort;

    #[test]
    fn the_greatest_number_has_five_bytes(rt: HostRuntime) {
        let mut reader = Reader::new(&[0xFF, 0xFF, 0xFF, 0xFF, 0x0F, 0x00]);
        assert_eq!(rt; reader.number(), Ok(4_294_967_295));
        assert_eq!(rt; reader.place(), 5);
    }

    #[test]
    fn longer_forms_are_refused(rt: HostRuntime) {
        let mut reader = Reader::new(&[0x01, 0x80, 0x00]);
        assert_eq!(rt; reader.number(), Ok(1));
        assert_eq!(rt; reader.number(), Err(NumberRefusal::Misspelt(1)));
        assert_eq!(rt;
            Reader::new(&[0x80, 0x80, 0x80, 0x80, 0x10]).number(),
            Err(NumberRefusal::Misspelt(0))
        );
        assert_eq!(rt;
            Reader::new(&[0x80]).number(),
            Err(NumberRefusal::EndsEarly(0))
        );
    }

    #[test]
    fn a_card_and_a_sheet_are_read_in_turn(rt: HostRuntime) {
        let input = [
            0x03, 0x0A, 0xD8, 0x04, 0x14, 0xDC, 0x0B, 0x3C, 0xF0, 0x2E, 0x02, 0x02, 0x64, 0x3C,
            0x01, 0x3C, 0x01,
        ];
        let mut reader = Reader::new(&input);
        assert_eq!(rt; read_card(&mut reader).map(|card| card.machines()), Ok(3));
        let mut sheet = Sheet::open();
        assert_eq!(rt; read_sheet_from(&mut reader, &mut sheet), Ok(()));
        assert_eq!(rt; reader.place(), 16);
        assert_eq!(rt; sheet.task_count(), 3);
    }

    // Stage and work of a standing task.
    fn standing(sheet: &Sheet, task: usize) -> Option<(usize, u32)> {
        let task = sheet.get(task)?;
        (!task.struck).then_some((task.stage, task.work))
    }

    #[test]
    fn what_is_written_is_read_again(rt: HostRuntime) {
        let mut sheet = Sheet::replay(&[
            Call::Stage,
            Call::Task { stage: 0, work: 50 },
            Call::Task { stage: 0, work: 60 },
            Call::Stage,
            Call::Task { stage: 1, work: 60 },
            Call::Rework { task: 0, work: 100 },
            Call::Strike { task: 1 },
        ]);
        let mut memory = [0xEE; 6];
        assert_eq!(rt; write_sheet(&sheet, &mut memory[0..4]), Err(TooShort));
        assert_eq!(rt; memory, [0xEE; 6]);
        assert_eq!(rt; write_sheet(&sheet, &mut memory), Ok(5));
        assert_eq!(rt; memory, [0x02, 0x01, 0x64, 0x01, 0x3C, 0xEE]);
        assert_eq!(rt; read_sheet(&memory[0..5], &mut sheet), Ok(()));
        assert_eq!(rt; sheet.stage_count(), 2);
        assert_eq!(rt; sheet.task_count(), 2);
        assert_eq!(rt; standing(&sheet, 0), Some((0, 100)));
        assert_eq!(rt; standing(&sheet, 1), Some((1, 60)));
    }

    #[test]
    fn sixteen_stages_and_256_tasks_are_the_most(rt: HostRuntime) {
        let mut file = [0u8; 785];
        for (place, byte) in file.iter_mut().enumerate() {
            // 16 works of a million, three bytes each, behind their count
            *byte = match place % 49 {
                _ if place == 0 => 16,
                1 => 16,
                at if at % 3 == 2 => 0xC0,
                at if at % 3 == 0 && at > 0 => 0x84,
                _ => 0x3D,
            };
        }
        let mut sheet = Sheet::open();
        assert_eq!(rt; read_sheet(&file, &mut sheet), Ok(()));
        assert_eq!(rt; sheet.stage_count(), 16);
        assert_eq!(rt; sheet.task_count(), 256);
        assert_eq!(rt; standing(&sheet, 0), Some((0, 1_000_000)));
        assert_eq!(rt; standing(&sheet, 255), Some((15, 1_000_000)));
        let mut memory = [0xEE; 786];
        assert_eq!(rt; write_sheet(&sheet, &mut memory), Ok(785));
        assert!(rt; memory[0..785] == file[0..785]);
        assert_eq!(rt; memory[785], 0xEE);
    }

    // Reads a file that is refused to the place of another sheet, which is to be kept.
    fn expect_refused(rt: &impl Abort, file: &[u8], refusal: FileRefusal, layer: Layer) {
        let mut sheet = Sheet::replay(&[Call::Stage, Call::Task { stage: 0, work: 7 }]);
        assert_eq!(rt; read_sheet(file, &mut sheet), Err(refusal));
        assert_eq!(rt; refusal.layer(), layer);
        assert_eq!(rt; sheet.stage_count(), 1);
        assert_eq!(rt; sheet.task_count(), 1);
        assert_eq!(rt; standing(&sheet, 0), Some((0, 7)));
    }

    fn of_sheet(refusal: SheetRefusal, place: usize) -> FileRefusal {
        FileRefusal::Sheet { refusal, place }
    }

    #[test]
    fn a_refused_file_keeps_the_sheet(rt: HostRuntime) {
        let ends = FileRefusal::Number(NumberRefusal::EndsEarly(2));
        expect_refused(&rt, &[0x01, 0x01], ends, Layer::Number);
        let longer = FileRefusal::Number(NumberRefusal::Misspelt(1));
        expect_refused(&rt, &[0x01, 0x80, 0x00], longer, Layer::Number);
        let idle = of_sheet(SheetRefusal::WorkOutOfRange, 2);
        expect_refused(&rt, &[0x01, 0x01, 0x00], idle, Layer::Sheet);
        let extra = FileRefusal::Extra(1);
        expect_refused(&rt, &[0x00, 0x07], extra, Layer::File);
        let mut stages = [0; 18];
        stages[0] = 17;
        let full = of_sheet(SheetRefusal::Full, 17);
        expect_refused(&rt, &stages, full, Layer::Sheet);
        let mut tasks = [1; 260];
        tasks[1] = 0x81;
        tasks[2] = 0x02;
        let full = of_sheet(SheetRefusal::Full, 259);
        expect_refused(&rt, &tasks, full, Layer::Sheet);
    }

    // Reads a card that is refused, which leaves the reader where it was.
    fn expect_no_card(rt: &impl Abort, file: &[u8], refusal: FileRefusal) {
        let mut reader = Reader::new(file);
        assert_eq!(rt;
            read_card(&mut reader).map(|card| card.machines()),
            Err(refusal)
        );
        assert_eq!(rt; reader.place(), 0);
        assert_eq!(rt; refusal.layer(), Layer::Card);
    }

    #[test]
    fn a_refused_line_has_the_place_of_its_speed(rt: HostRuntime) {
        let refusal = CardRefusal::OutOfRange;
        let idle = FileRefusal::Card { refusal, place: 3 };
        expect_no_card(&rt, &[0x02, 0x0A, 0x01, 0x00, 0x01], idle);
        let mut lines = [1; 67];
        lines[0] = 33;
        let refusal = CardRefusal::Full;
        let full = FileRefusal::Card { refusal, place: 65 };
        expect_no_card(&rt, &lines, full);
    }

    #[test]
    fn refusals_have_numbers_and_places(rt: HostRuntime) {
        for (refusal, number, place) in [
            (of_sheet(SheetRefusal::Full, 17), 1, 17),
            (of_sheet(SheetRefusal::WorkOutOfRange, 2), 3, 2),
            (FileRefusal::Number(NumberRefusal::EndsEarly(4)), 11, 4),
            (FileRefusal::Number(NumberRefusal::Misspelt(5)), 12, 5),
            (FileRefusal::Extra(1), 13, 1),
        ] {
            assert_eq!(rt; refusal.number(), number);
            assert_eq!(rt; refusal.carried(), Some(place));
        }
    }
}
