// The refusal of too few cells is compared and copied whole, and layouts are copied whole.
ghost use Rattle.std.proofs.Common.{rules};

use crate::{Layout, TooFewCells};
use refusals::{PlainClone, PlainEq};

impl PlainClone for Layout {
    ghost copied = { Prim.search rules };
}

impl PlainEq for TooFewCells {
    ghost same = { Prim.search rules };
}

impl PlainClone for TooFewCells {
    ghost copied = { Prim.search rules };
}
