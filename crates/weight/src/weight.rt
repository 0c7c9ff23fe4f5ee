// Kinds of weight.
ghost use Rattle.std.specs.Prelude.{◌≡◌, Bool, Decides};
ghost use Rattle.weight.specs.Additions.{Addition, CommutativeMonoid, Inverts};

// Weights that can be added in any bracketing and order, and taken away again.
pub trait Weight: Copy + PartialEq {
    // the neutral weight
    const NEUTRAL: Self;

    ghost NEUTRAL: { Self };

    // the neutral weight and the addition
    ghost addition: { Addition Self };

    // the inverse
    ghost minus: { Self → Self };

    // The sum.
    fn add(self, other: Self) -> Self
        ensures { result ≡ addition.plus self other };

    // The weight that adds up with this one to the neutral one.
    fn inverse(self) -> Self
        ensures { result ≡ minus self };

    // the constant is the neutral weight of the addition
    ghost neutral_law: { NEUTRAL ≡ addition.neutral };

    ghost monoid: { CommutativeMonoid addition };

    ghost inverts: { Inverts addition minus };

    // the test of equality tells exactly whether two weights are equal
    ghost exact: { (x y : Self) (r : Bool) → (r ≡ Self.PartialEq.eq x y) → Decides r (x ≡ y) };
}
