// Questions are compared and copied whole; batches and inputs are copied whole.
ghost use Rattle.std.proofs.Common.{rules};

use crate::{Batch, KeyInput, Question};
use refusals::{PlainClone, PlainEq};

impl PlainClone for Batch {
    ghost copied = { Prim.search rules };
}

impl PlainClone for KeyInput {
    ghost copied = { Prim.search rules };
}

impl PlainEq for Question {
    ghost same = { Prim.search rules };
}

impl PlainClone for Question {
    ghost copied = { Prim.search rules };
}
