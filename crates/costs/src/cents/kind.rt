// Cents as a cost kind: they add up.
ghost use Rattle.std.specs.Prelude.{◌≡◌};
ghost use Rattle.costs.specs.Cents.{cents, cents_kind};
ghost use Rattle.costs.specs.KindLaws.{cents_laws};

use crate::{Cents, Cost};

impl Cents {
    pub const GREATEST: u64 = 1_000_000_000_000_000;

    // The amount, held at the greatest.
    pub fn new(amount: u64) -> Cents
        ensures { result ≡ cents amount }
    {
        Cents {
            value: amount.min(Self::GREATEST),
        }
    }

    pub fn amount(self) -> u64
        ensures { result ≡ self.value }
    {
        self.value
    }
}

impl Cost for Cents {
    ghost kind = { cents_kind };

    ghost total = { cents_laws.total };

    ghost antisymmetric = { cents_laws.antisymmetric };

    ghost transitive = { cents_laws.transitive };

    ghost associative = { cents_laws.associative };

    ghost commutative = { cents_laws.commutative };

    ghost identity = { cents_laws.identity };

    ghost monotone = { cents_laws.monotone };

    fn neutral() -> Cents {
        Cents::new(0)
    }

    fn join(self, other: Cents) -> Cents {
        Cents::new(self.value + other.value)
    }

    fn at_most(self, other: Cents) -> bool {
        self <= other
    }
}
