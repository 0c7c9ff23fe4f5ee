// Carriers as weights: sums wrap.
ghost use Rattle.std.specs.Prelude.{◌≡◌, refl, ◌+◌, ◌-◌, ◌%◌, ◌^◌};
ghost use Rattle.weight.specs.Kinds.{carriers, opposite};
ghost use Rattle.weight.specs.Counts.{carriers_monoid, carriers_inverts, carriers_exact};

use crate::carriers::Carriers;
use crate::weight::Weight;

impl Carriers {
    // So many carriers.
    pub fn new(count: u32) -> Carriers
        ensures { result.count ≡ count }
    {
        Carriers { count }
    }

    // How many they are.
    pub fn count(self) -> u32
        ensures { result ≡ self.count }
    {
        self.count
    }
}

impl Weight for Carriers {
    const NEUTRAL: Carriers = Carriers { count: 0 };

    ghost NEUTRAL = { carriers.neutral };

    ghost addition = { carriers };

    ghost minus = { opposite };

    ghost neutral_law = { refl };

    ghost monoid = { carriers_monoid };

    ghost inverts = { carriers_inverts };

    ghost exact = { carriers_exact };

    fn add(self, other: Carriers) -> Carriers
        ensures count { result.count ≡ (self.count + other.count) % 2 ^ 32 }
    {
        Carriers {
            count: self.count.wrapping_add(other.count),
        }
    }

    fn inverse(self) -> Carriers
        ensures count { result.count ≡ (2 ^ 32 - self.count) % 2 ^ 32 }
    {
        Carriers {
            count: self.count.wrapping_neg(),
        }
    }
}
