// Tasks, calls and refusals are compared and copied whole, and sheets are copied whole.
ghost use Rattle.std.proofs.Common.{rules};

use crate::{Call, Sheet, SheetRefusal, Task};
use refusals::{PlainClone, PlainEq};

impl PlainEq for Task {
    ghost same = { Prim.search rules };
}

impl PlainClone for Task {
    ghost copied = { Prim.search rules };
}

impl PlainEq for Call {
    ghost same = { Prim.search rules };
}

impl PlainClone for Call {
    ghost copied = { Prim.search rules };
}

impl PlainEq for SheetRefusal {
    ghost same = { Prim.search rules };
}

impl PlainClone for SheetRefusal {
    ghost copied = { Prim.search rules };
}

impl PlainClone for Sheet {
    ghost copied = { Prim.search rules };
}
