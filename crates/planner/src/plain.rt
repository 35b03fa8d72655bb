// Refusals of questions are compared and copied whole.
ghost use Rattle.std.proofs.Common.{rules};

use crate::QuestionRefusal;
use refusals::{PlainClone, PlainEq};

impl PlainEq for QuestionRefusal {
    ghost same = { Prim.search rules };
}

impl PlainClone for QuestionRefusal {
    ghost copied = { Prim.search rules };
}
