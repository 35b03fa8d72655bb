// Lines one behind another.
ghost use Rattle.std.specs.Prelude.{◌≡◌, ◌≤◌, length};
ghost use Rattle.std.specs.List.{flat_map};
ghost use Rattle.texts.specs.Putting.{Puts};
ghost use Rattle.texts.specs.Room.{room_behind};
ghost use Rattle.texts.specs.Write.{Writes};

use crate::Line;
use texts::TooShort;

// How much of the room the lines leave, none where they are longer.
pub(crate) fn lines_room<L: Line>(lines: &[L], room: usize) -> Option<usize>
    ensures { result ≡ room_behind (flat_map L.Line.line lines.now) room }
{
    let mut left = room;
    for line in lines {
        left = line.room_behind(left)?;
    }
    Some(left)
}

// Puts the lines at a place, and returns the place behind them.
pub(crate) fn put_lines<L: Line>(
    lines: &[L],
    memory: &mut [u8],
    at: usize,
) -> Result<usize, TooShort>
    requires { at ≤ length memory.old }
    ensures { Puts memory.old at (flat_map L.Line.line lines.now) memory.new result }
{
    let mut end = at;
    for line in lines {
        end += line.write(&mut memory[end..])?;
    }
    Ok(end)
}

// Writes the lines at the start of the memory, and returns how many bytes that took.
pub fn write_lines<L: Line>(lines: &[L], memory: &mut [u8]) -> Result<usize, TooShort>
    ensures { Writes (flat_map L.Line.line lines.now) memory.old memory.new result }
{
    lines_room(lines, memory.len()).ok_or(TooShort)?;
    put_lines(lines, memory, 0)
}
