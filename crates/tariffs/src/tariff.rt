// What a tariff is.
ghost use Rattle.std.specs.Prelude.{◌≡◌};
ghost use Rattle.tariffs.specs.Meaning.{Meaning, Ranged};

use crate::Quote;
use costs::Cost;

// The most machines that a tariff has.
pub const MAX_MACHINES: usize = 32;

// A tariff: so many machines, and what each quotes for a work. It names the cost kind in which it charges.
//
// Its meaning is fixed: a question repeated gets the same quote, and none alters it or is refused.
pub trait Tariff {
    type Cost: Cost;

    ghost meaning: { Self → Meaning Self.Cost };

    ghost ranged: { (tariff : Self) → Ranged (meaning tariff) };

    // How many machines there are, at most 32. They are numbered from 0.
    fn machines(&self) -> usize
        ensures { result ≡ (meaning self.now).count };

    // What a machine quotes for a work, if anything.
    fn quote(&self, machine: usize, work: u32) -> Option<Quote<Self::Cost>>
        ensures { result ≡ (meaning self.now).quote machine work };
}
