// Refusals of comparisons are compared and copied whole.
ghost use Rattle.std.proofs.Common.{rules};

use crate::CompareRefusal;
use refusals::{PlainClone, PlainEq};

impl PlainEq for CompareRefusal {
    ghost same = { Prim.search rules };
}

impl PlainClone for CompareRefusal {
    ghost copied = { Prim.search rules };
}
