// Points, cells, choices and better bargains are compared and copied whole.
ghost use Rattle.std.proofs.Common.{rules};

use crate::{Better, Cell, Choice, Point};
use refusals::{PlainClone, PlainEq};

impl<C: PlainEq> PlainEq for Point<C> {
    ghost same = { let cost = C.same in Prim.search rules };
}

impl<C: PlainClone> PlainClone for Point<C> {
    ghost copied = { let cost = C.copied in Prim.search rules };
}

impl<C: PlainEq> PlainEq for Cell<C> {
    ghost same = { let cost = C.same in Prim.search rules };
}

impl<C: PlainClone> PlainClone for Cell<C> {
    ghost copied = { let cost = C.copied in Prim.search rules };
}

impl<C: PlainEq> PlainEq for Choice<C> {
    ghost same = { let cost = C.same in Prim.search rules };
}

impl<C: PlainClone> PlainClone for Choice<C> {
    ghost copied = { let cost = C.copied in Prim.search rules };
}

impl<C: PlainEq> PlainEq for Better<C> {
    ghost same = { let cost = C.same in Prim.search rules };
}

impl<C: PlainClone> PlainClone for Better<C> {
    ghost copied = { let cost = C.copied in Prim.search rules };
}
