// Custody grades as a cost kind: the greater of two counts.
ghost use Rattle.std.specs.Prelude.{◌≡◌};
ghost use Rattle.costs.specs.Grade.{grade, grade_kind};
ghost use Rattle.costs.specs.KindLaws.{grade_laws};

use crate::{Cost, Grade};

impl Grade {
    pub const GREATEST: u8 = 15;

    // The grade of this number, held at the greatest.
    pub fn new(number: u32) -> Grade
        ensures { result ≡ grade number }
    {
        Grade {
            value: number.min(u32::from(Self::GREATEST)) as u8,
        }
    }

    pub fn number(self) -> u8
        ensures { result ≡ self.value }
    {
        self.value
    }
}

impl Cost for Grade {
    ghost kind = { grade_kind };

    ghost total = { grade_laws.total };

    ghost antisymmetric = { grade_laws.antisymmetric };

    ghost transitive = { grade_laws.transitive };

    ghost associative = { grade_laws.associative };

    ghost commutative = { grade_laws.commutative };

    ghost identity = { grade_laws.identity };

    ghost monotone = { grade_laws.monotone };

    fn neutral() -> Grade {
        Grade::new(0)
    }

    fn join(self, other: Grade) -> Grade {
        self.max(other)
    }

    fn at_most(self, other: Grade) -> bool {
        self <= other
    }
}
