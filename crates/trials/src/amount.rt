// Costs as plain numbers.
ghost use Rattle.std.specs.Prelude.{◌≡◌, ℕ};
ghost use Rattle.costs.specs.Cents.{cents};
ghost use Rattle.costs.specs.Grade.{grade};
ghost use Rattle.trials.specs.Amount.{amount_of_cents, amount_of_grade};

use costs::{Cents, Cost, Grade};

// A cost kind whose costs are whole numbers up to a greatest one.
pub trait Amount: Cost {
    ghost amount_of: { Self → ℕ };

    ghost held: { ℕ → Self };

    fn amount(self) -> u64
        ensures { result ≡ amount_of self };

    // The cost of this amount; a greater one counts as the greatest.
    fn of(amount: u64) -> Self
        ensures { result ≡ held amount };
}

impl Amount for Cents {
    ghost amount_of = { amount_of_cents };

    ghost held = { cents };

    fn amount(self) -> u64 {
        Cents::amount(self)
    }

    fn of(amount: u64) -> Cents {
        Cents::new(amount)
    }
}

impl Amount for Grade {
    ghost amount_of = { amount_of_grade };

    ghost held = { grade };

    fn amount(self) -> u64 {
        u64::from(self.number())
    }

    fn of(amount: u64) -> Grade {
        Grade::new(amount.min(u64::from(Self::GREATEST)) as u32)
    }
}
