// The tariff that never quotes.
ghost use Rattle.std.specs.Prelude.{◌≡◌, ℕ, None};
ghost use Rattle.tariffs.specs.Never.{never_meaning, never_ranged};

use crate::{MAX_MACHINES, Quote, Tariff};
use costs::Cost;
use std::marker::PhantomData;

// A tariff of 32 machines, in any cost kind, that quotes nothing for any work.
#[derive(Clone, Copy)]
pub struct NeverQuotes<C> {
    kind: PhantomData<C>,
}

impl<C> NeverQuotes<C> {
    pub fn new() -> NeverQuotes<C>
        ensures machines { (never_meaning result).count ≡ 32 }
        ensures quotes_nothing { (machine work : ℕ) → (never_meaning result).quote machine work ≡ None }
    {
        NeverQuotes { kind: PhantomData }
    }
}

impl<C: Cost> Tariff for NeverQuotes<C> {
    type Cost = C;

    ghost meaning = { never_meaning };

    ghost ranged = { never_ranged };

    fn machines(&self) -> usize {
        MAX_MACHINES
    }

    fn quote(&self, _machine: usize, _work: u32) -> Option<Quote<C>> {
        None
    }
}
