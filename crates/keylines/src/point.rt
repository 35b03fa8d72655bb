// The line of a pair of length and cost, for every written cost kind.
ghost use Rattle.keylines.specs.Point.{point_line};

use crate::Line;
use costs::WrittenCost;
use model::Point;
use texts::{TooShort, number_len, write_number};

impl<C: WrittenCost> Line for Point<C> {
    ghost line = { point_line C.WrittenCost.text };

    fn room_behind(&self, room: usize) -> Option<usize> {
        room.checked_sub(number_len(self.length as u64) + 2)?
            .checked_sub(self.cost.text_len())
    }

    fn write(&self, memory: &mut [u8]) -> Result<usize, TooShort> {
        self.room_behind(memory.len()).ok_or(TooShort)?;
        let length_end = write_number(self.length as u64, memory)?;
        memory[length_end] = b' ';
        let cost_start = length_end + 1;
        let cost_end = cost_start + self.cost.write(&mut memory[cost_start..])?;
        memory[cost_end] = b'\n';
        Ok(cost_end + 1)
    }
}
