// Words and the refusal of memory that is too short are compared and copied whole.
ghost use Rattle.std.proofs.Common.{rules};

use crate::{TooShort, Word};
use refusals::{PlainClone, PlainEq};

impl PlainEq for TooShort {
    ghost same = { Prim.search rules };
}

impl PlainClone for TooShort {
    ghost copied = { Prim.search rules };
}

impl PlainEq for Word {
    ghost same = { Prim.search rules };
}

impl PlainClone for Word {
    ghost copied = { Prim.search rules };
}
