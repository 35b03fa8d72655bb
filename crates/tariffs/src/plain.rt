// Cards, rows, quotes and refusals are compared and copied whole.
ghost use Rattle.std.proofs.Common.{rules};
ghost use Rattle.tariffs.specs.Same.{same_cards, same_line};

use crate::{CardRefusal, Line, Quote, RateCard, Row, RowRefusal};
use refusals::{PlainClone, PlainEq};

impl PlainEq for Line {
    ghost same = { Prim.search (rules, same_line) };
}

impl PlainClone for Line {
    ghost copied = { Prim.search rules };
}

impl PlainEq for RateCard {
    ghost same = { same_cards (Prim.search (rules, same_line)) };
}

impl PlainClone for RateCard {
    ghost copied = { Prim.search rules };
}

impl PlainEq for Row {
    ghost same = { Prim.search rules };
}

impl PlainClone for Row {
    ghost copied = { Prim.search rules };
}

impl<C: PlainEq> PlainEq for Quote<C> {
    ghost same = { let cost = C.same in Prim.search rules };
}

impl<C: PlainClone> PlainClone for Quote<C> {
    ghost copied = { let cost = C.copied in Prim.search rules };
}

impl PlainEq for CardRefusal {
    ghost same = { Prim.search rules };
}

impl PlainClone for CardRefusal {
    ghost copied = { Prim.search rules };
}

impl PlainEq for RowRefusal {
    ghost same = { Prim.search rules };
}

impl PlainClone for RowRefusal {
    ghost copied = { Prim.search rules };
}
