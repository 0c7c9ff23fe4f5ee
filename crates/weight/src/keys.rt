// Sets of trapped keys as weights: a key that is in both of two sets is in neither when they are added.
ghost use Rattle.std.specs.Prelude.{◌≡◌, refl};
ghost use Rattle.weight.specs.Kinds.{keys, itself};
ghost use Rattle.weight.specs.KeySets.{keys_monoid, keys_inverts, keys_exact};

use crate::weight::Weight;
use std::marker::Model;

// A set of up to 64 keys: key n is in it where bit n is 1. Contracts see it as that number.
#[derive(Clone, Copy, PartialEq, Eq, Debug)]
pub struct Keys {
    set: u64,
}

impl Model for Keys {
    ghost use Rattle.std.specs.Prelude.{ℕ};

    ghost Value = { ℕ };

    ghost view = { λ keys. keys.set };

    ghost inverse = { λ s. record { set = s } };
}

impl Keys {
    // The keys of a set.
    pub fn new(set: u64) -> Keys
        ensures { result ≡ set }
    {
        Keys { set }
    }

    // The set of the keys.
    pub fn set(self) -> u64
        ensures { result ≡ self }
    {
        self.set
    }
}

impl Weight for Keys {
    const NEUTRAL: Keys = Keys { set: 0 };

    ghost NEUTRAL = { keys.neutral };

    ghost addition = { keys };

    ghost minus = { itself };

    ghost neutral_law = { refl };

    ghost monoid = { keys_monoid };

    ghost inverts = { keys_inverts };

    ghost exact = { keys_exact };

    fn add(self, other: Keys) -> Keys {
        Keys {
            set: self.set ^ other.set,
        }
    }

    fn inverse(self) -> Keys {
        self
    }
}
