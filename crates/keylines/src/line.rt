// What is told by a line of text.
ghost use Rattle.std.specs.Prelude.{◌≡◌, ℕ, List};
ghost use Rattle.texts.specs.Room.{room_behind};
ghost use Rattle.texts.specs.Write.{Writes};

use texts::TooShort;

pub trait Line {
    ghost line: { Self → List ℕ };

    // How much of the room the line leaves, none where it is longer.
    fn room_behind(&self, room: usize) -> Option<usize>
        ensures { result ≡ room_behind (line self.now) room };

    // Writes the line at the start of the memory, and returns how many bytes that took.
    fn write(&self, memory: &mut [u8]) -> Result<usize, TooShort>
        ensures { Writes (line self.now) memory.old memory.new result };
}
