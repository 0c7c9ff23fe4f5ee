// Places of a set by their lines.
ghost use Rattle.std.specs.Prelude.{◌≡◌};
ghost use Rattle.std.specs.Iterator.{at_most};
ghost use Rattle.net.specs.Lowest.{lowest_of};
ghost use Rattle.net.specs.Sets.{has};
ghost use Rattle.run.specs.Firing.{agrees};
ghost use Rattle.run.specs.Walks.{TakesLowest};

use board::Lines;
use net::lowest;

// The places of a set, the lowest first. A walk has as many turns as the set has places, and none for the other numbers below 64.
#[derive(Drop)]
struct Places {
    rest: u64,
}

impl Iterator for Places {
    type Item = u8;

    ghost next_gives = { λ places place left. TakesLowest places.rest place left.rest };

    ghost remaining = { λ places. at_most places.rest };

    fn next(&mut self) -> Option<u8> {
        let place = lowest(self.rest)?;
        self.rest ^= self.rest & (1 << place);
        Some(place)
    }
}

// The lowest place of the set whose line is as it is wanted: lit, or dark. Only the places of the set are looked at.
// A flag and not a closure: the contract says by it which place is meant.
pub(crate) fn lowest_with<L: Lines>(lines: &L, set: u64, wanted: bool) -> Option<u8>
    ensures { result ≡ lowest_of set (λ p. agrees wanted (has (L.Lines.lit lines.now) p)) }
{
    Places { rest: set }.find(|&place| lines.read(place) == wanted)
}
