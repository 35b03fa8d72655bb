// Plain values: what `==` and `clone` of a public type look at.
ghost use Rattle.std.specs.Prelude.{◌≡◌, ◌↔◌, true, IfOk};

use std::alloc::AllocError;

/// A type whose `==` compares whole values: two are equal exactly where they are the same in every field.
pub trait PlainEq: PartialEq {
    ghost same: { (x y : Self) → (Self.PartialEq.eq x y ≡ true) ↔ (x ≡ y) };
}

/// A type whose `clone` copies whole values.
pub trait PlainClone: Clone {
    ghost copied: { (x y : Self) → Self.Clone.is_clone x y → y ≡ x };
}

/// Whether two values are the same, by `==`.
pub fn is_same<T: PlainEq>(first: &T, second: &T) -> bool
    ensures { (result ≡ true) ↔ (first.now ≡ second.now) }
{
    first == second
}

/// The same value again, by `clone`.
pub fn duplicate<T: PlainClone>(value: &T) -> Result<T, AllocError>
    ensures { IfOk result (λ copy. copy ≡ value.now) }
{
    value.clone()
}
