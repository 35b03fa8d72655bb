// Cents as text: plain decimal digits.
ghost use Rattle.costs.specs.Cents.{cents_text};
ghost use Rattle.std.proofs.Common.{ap, arith};
ghost use Rattle.std.proofs.lemmas.Fmt.{decimal_injective};
ghost use Rattle.costs.specs.Same.{same_cents};

use crate::{Cents, WrittenCost};
use texts::{TooShort, number_len, write_number};

impl WrittenCost for Cents {
    ghost text = { cents_text };

    ghost distinct = { λ a b. (λ e. same_cents a b (decimal_injective a.value b.value (omega arith) (omega arith) e), ap cents_text) };

    fn text_len(self) -> usize {
        number_len(self.value)
    }

    fn write(self, memory: &mut [u8]) -> Result<usize, TooShort> {
        write_number(self.value, memory)
    }
}
