// Machines of tasks are compared and copied whole.
ghost use Rattle.std.proofs.Common.{rules};

use crate::Assigned;
use refusals::{PlainClone, PlainEq};

impl PlainEq for Assigned {
    ghost same = { Prim.search rules };
}

impl PlainClone for Assigned {
    ghost copied = { Prim.search rules };
}
