// Cost kinds whose costs can be written.
ghost use Rattle.std.specs.Prelude.{◌≡◌, ℕ, List, length};
ghost use Rattle.texts.specs.Write.{Writes};

use crate::Cost;
use texts::TooShort;

// A cost kind with a text for each cost.
pub trait WrittenCost: Cost {
    ghost text: { Self → List ℕ };

    // How many bytes the text has.
    fn text_len(self) -> usize
        ensures { result ≡ length (text self) };

    // Writes the text at the start of the memory, and returns how many bytes that took.
    fn write(self, memory: &mut [u8]) -> Result<usize, TooShort>
        ensures { Writes (text self) memory.old memory.new result };

    // Two texts are equal exactly when the costs are.
    ghost distinct: { (a b : Self) → (text a ≡ text b → a ≡ b) × (a ≡ b → text a ≡ text b) };
}
