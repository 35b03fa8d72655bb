// What a cost kind is.
ghost use Rattle.std.specs.Prelude.{◌≡◌, true, ◌⊎◌};
ghost use Rattle.costs.specs.Kind.{Kind};

// A cost kind: a total order on costs, with a join that keeps the order and a neutral cost.
//
// No law says that a join raises a cost, or that the neutral cost is the least.
pub trait Cost: Copy {
    ghost kind: { Kind Self };

    fn neutral() -> Self
        ensures { result ≡ kind.neutral };

    fn join(self, other: Self) -> Self
        ensures { result ≡ kind.join self other };

    fn at_most(self, other: Self) -> bool
        ensures { result ≡ kind.at_most self other };

    ghost total: { (a b : Self) → (kind.at_most a b ≡ true) ⊎ (kind.at_most b a ≡ true) };

    ghost antisymmetric: { (a b : Self) → kind.at_most a b ≡ true → kind.at_most b a ≡ true → a ≡ b };

    ghost transitive: { (a b c : Self) → kind.at_most a b ≡ true → kind.at_most b c ≡ true → kind.at_most a c ≡ true };

    ghost associative: { (a b c : Self) → kind.join (kind.join a b) c ≡ kind.join a (kind.join b c) };

    ghost commutative: { (a b : Self) → kind.join a b ≡ kind.join b a };

    ghost identity: { (a : Self) → kind.join a kind.neutral ≡ a };

    ghost monotone: { (a b c : Self) → kind.at_most a b ≡ true → kind.at_most (kind.join a c) (kind.join b c) ≡ true };
}
