// Better bargains.

use crate::Point;

/// Which of two sheets has the better bargain, and its pair: a length and cost that an assignment of that sheet has, and
/// no assignment of the other is as good as, that is no longer and no dearer. It is the shortest such pair of either
/// sheet, and of that length the cheapest. docs/RULES.md, "The same bargains", states the rule.
#[derive(Clone, Copy, Drop, PartialEq, Eq, Debug)]
pub enum Better<C> {
    /// The first sheet has it.
    First(Point<C>),
    /// The second sheet has it.
    Second(Point<C>),
}
