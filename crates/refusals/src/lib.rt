// Refusals: what a refused call tells its caller, alike in every crate; and what `==` and `clone` look at.
#![tactic(auto)]

ghost use Rattle.std.specs.Prelude.{◌≡◌};
ghost use Rattle.refusals.specs.Answer.{Refused};

mod plain;

pub use plain::{PlainClone, PlainEq, duplicate, is_same};

// A reason for which a call is refused.
//
// Each has a number that is the same in every crate. Some carry one value more: the row, task, argument or place
// that the refusal is about.
pub trait Refusal {
    ghost told: { Self → Refused };

    fn number(&self) -> u8
        ensures { result ≡ (told self.now).number };

    fn carried(&self) -> Option<usize>
        ensures { result ≡ (told self.now).carried };
}
