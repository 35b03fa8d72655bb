// The line of a task and its machine.
ghost use Rattle.std.specs.Prelude.{◌≡◌};
ghost use Rattle.keylines.specs.Machine.{machine_line, machine_words};

use crate::Line;
use texts::{TooShort, Word, line_room, write_line};

// A task number and the machine that a plan gives it.
#[derive(Clone, Copy, PartialEq, Eq, Default, Debug)]
pub struct Assigned {
    pub task: usize,
    pub machine: u8,
}

impl Assigned {
    fn words(&self) -> [Word; 2]
        ensures { result ≡ machine_words self.now }
    {
        [
            Word::Number(self.task as u64),
            Word::Number(u64::from(self.machine)),
        ]
    }
}

impl Line for Assigned {
    ghost line = { machine_line };

    fn room_behind(&self, room: usize) -> Option<usize> {
        line_room(&self.words(), room)
    }

    fn write(&self, memory: &mut [u8]) -> Result<usize, TooShort> {
        write_line(&self.words(), memory)
    }
}
