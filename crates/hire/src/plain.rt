// Terms and refusals of hires are compared and copied whole, and hires are copied whole.
ghost use Rattle.std.proofs.Common.{rules};

use crate::{Hire, HireRefusal, Terms};
use refusals::{PlainClone, PlainEq};

impl PlainClone for Hire {
    ghost copied = { Prim.search rules };
}

impl PlainEq for HireRefusal {
    ghost same = { Prim.search rules };
}

impl PlainClone for HireRefusal {
    ghost copied = { Prim.search rules };
}

impl PlainEq for Terms {
    ghost same = { Prim.search rules };
}

impl PlainClone for Terms {
    ghost copied = { Prim.search rules };
}
