// Cents and grades are compared and copied whole.
ghost use Rattle.std.proofs.Common.{rules};
ghost use Rattle.costs.specs.Same.{same_cents, same_grade};

use crate::{Cents, Grade};
use refusals::{PlainClone, PlainEq};

impl PlainEq for Cents {
    ghost same = { Prim.search (rules, same_cents) };
}

impl PlainClone for Cents {
    ghost copied = { Prim.search rules };
}

impl PlainEq for Grade {
    ghost same = { Prim.search (rules, same_grade) };
}

impl PlainClone for Grade {
    ghost copied = { Prim.search rules };
}
