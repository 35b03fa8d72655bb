// Refusals of numbers are compared and copied whole.
ghost use Rattle.std.proofs.Common.{rules};

use crate::NumberRefusal;
use refusals::{PlainClone, PlainEq};

impl PlainEq for NumberRefusal {
    ghost same = { Prim.search rules };
}

impl PlainClone for NumberRefusal {
    ghost copied = { Prim.search rules };
}
