// The sheets and tariffs that are timed.
use sheets::Sheet;
use std::array;
use tariffs::{RateCard, Row};
use trials::Sequence;

// The speed of a card's slowest machine.
const SLOWEST: u32 = 100;

// How many rows of a table quote each task.
const ROWS_A_TASK: usize = 4;

// The size of a sheet and its card, and the longest time quoted in each stage.
#[derive(Clone, Copy)]
pub(crate) struct Shape {
    stages: usize,
    tasks: usize,
    machines: usize,
    longest: u32,
}

impl Shape {
    pub(crate) fn named(name: &str) -> Option<Shape> {
        let (stages, tasks, machines, longest) = match name {
            "usual" => (10, 100, 12, 480),
            "largest" => (16, 256, 32, 1_440),
            "minutes-180" => (8, 32, 8, 180),
            "minutes-360" => (8, 32, 8, 360),
            "minutes-720" => (8, 32, 8, 720),
            "minutes-1440" => (8, 32, 8, 1_440),
            "machines-4" => (8, 64, 4, 1_440),
            "machines-8" => (8, 64, 8, 1_440),
            "machines-16" => (8, 64, 16, 1_440),
            "machines-32" => (8, 64, 32, 1_440),
            _ => return None,
        };
        Some(Shape {
            stages,
            tasks,
            machines,
            longest,
        })
    }

    // Tasks in each stage in turn. The first of a stage takes the longest time on the slowest machine.
    pub(crate) fn sheet(self) -> Sheet {
        let mut sequence = first_numbers();
        let mut sheet = open_stages(self.stages);
        let most = self.longest.wrapping_mul(SLOWEST);
        for number in 0..self.tasks {
            let work = if number < self.stages {
                most
            } else {
                sequence.next(most / 10, most / 10 * 9)
            };
            let _ = sheet.task(number % self.stages.max(1), work);
        }
        sheet
    }

    // Machines of any speed up to ten times the slowest; the faster, the dearer a unit of work.
    pub(crate) fn card(self) -> RateCard {
        let mut sequence = first_numbers();
        let mut card = RateCard::new();
        for machine in 0..self.machines {
            let speed = if machine == 0 {
                SLOWEST
            } else {
                sequence.next(SLOWEST, 9 * SLOWEST)
            };
            let rate = sequence
                .next(20, 10)
                .wrapping_add(speed / 20)
                .wrapping_mul(speed);
            let _ = card.add(speed, rate);
        }
        card
    }
}

// Each case takes the same numbers.
fn first_numbers() -> Sequence {
    Sequence::behind(1)
}

fn open_stages(stages: usize) -> Sheet {
    let mut sheet = Sheet::open();
    for _ in 0..stages {
        let _ = sheet.stage();
    }
    sheet
}

// A sheet of 64 tasks in 8 stages, no two of the same work.
pub(crate) fn table_sheet() -> Sheet {
    let mut sheet = open_stages(8);
    for number in 0..64 {
        let _ = sheet.task(number % 8, 1_000 + number as u32);
    }
    sheet
}

// Four rows for each of these tasks; the faster, the higher the grade.
pub(crate) fn table_rows() -> [Row; 256] {
    let mut sequence = first_numbers();
    array::from_fn(|number| {
        let minutes = sequence.next(1, 1_440);
        Row {
            machine: (number * 7 % 32) as u32,
            work: 1_000 + (number / ROWS_A_TASK) as u32,
            minutes,
            grade: sequence
                .next(0, 4)
                .wrapping_add(1_440u32.saturating_sub(minutes) / 120),
        }
    })
}
