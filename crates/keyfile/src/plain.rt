// Refusals of files and the layers that refuse are compared and copied whole.
ghost use Rattle.std.proofs.Common.{rules};

use crate::{FileRefusal, Layer};
use refusals::{PlainClone, PlainEq};

impl PlainEq for FileRefusal {
    ghost same = { Prim.search rules };
}

impl PlainClone for FileRefusal {
    ghost copied = { Prim.search rules };
}

impl PlainEq for Layer {
    ghost same = { Prim.search rules };
}

impl PlainClone for Layer {
    ghost copied = { Prim.search rules };
}
