// Custody grades as text: plain decimal digits.
ghost use Rattle.costs.specs.Grade.{grade_text};
ghost use Rattle.std.proofs.Common.{ap, arith};
ghost use Rattle.std.proofs.lemmas.Fmt.{decimal_injective};
ghost use Rattle.costs.specs.Same.{same_grade};

use crate::{Grade, WrittenCost};
use texts::{TooShort, number_len, write_number};

impl WrittenCost for Grade {
    ghost text = { grade_text };

    ghost distinct = { λ a b. (λ e. same_grade a b (decimal_injective a.value b.value (omega arith) (omega arith) e), ap grade_text) };

    fn text_len(self) -> usize {
        number_len(u64::from(self.value))
    }

    fn write(self, memory: &mut [u8]) -> Result<usize, TooShort> {
        write_number(u64::from(self.value), memory)
    }
}
