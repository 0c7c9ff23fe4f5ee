// The check of a set of places: whether it is a strand.
ghost use Rattle.std.specs.Prelude.{◌≡◌, not, nat_lt};
ghost use Rattle.net.specs.Lowest.{lowest};
ghost use Rattle.net.specs.Nets.{drawn};
ghost use Rattle.refusal.specs.Outcomes.{Accepts};
ghost use Rattle.net.specs.Sets.{intersection, size};
ghost use Rattle.net.specs.Strands.{Strand};
ghost use Rattle.cover.specs.Checks.{even_and_thin_at, check_outcome};

use net::{Net, within};
use refusal::Refusal;

// Whether two places of the set are marked.
fn two_marks(net: &Net, set: u64) -> bool
    ensures { result ≡ nat_lt 1 (size (intersection (drawn net.now).marks set)) }
{
    (net.marks() & set).count_ones() > 1
}

// Whether the transition takes as many places of the set as it gives, and of each at most one.
fn even_and_thin(net: &Net, set: u64, transition: u8) -> bool
    ensures { result ≡ even_and_thin_at (drawn net.now) set transition }
{
    let taken = (net.takes(transition) & set).count_ones();
    let given = (net.gives(transition) & set).count_ones();
    taken == given && taken <= 1
}

// The lowest transition at which the set is not even or not thin.
fn lowest_failure(net: &Net, set: u64) -> Option<u8>
    ensures { result ≡ lowest (drawn net.now).transitions (λ t. not (even_and_thin_at (drawn net.now) set t)) }
{
    (0..net.transitions()).find(|t| !even_and_thin(net, set, *t))
}

// Tells whether the set is a strand of the net, or the first reason why it is not.
pub fn check(net: &Net, set: u64) -> Result<(), Refusal>
    ensures answer { result ≡ check_outcome (drawn net.now) set }
    ensures strand { Accepts result (Strand (drawn net.now) set) }
{
    if set == 0 {
        return Err(Refusal::EmptySet);
    }
    if !within(set, net.places()) {
        return Err(Refusal::PlaceOutside);
    }
    if two_marks(net, set) {
        return Err(Refusal::TwoMarks);
    }
    match lowest_failure(net, set) {
        Some(transition) => Err(Refusal::NotEvenOrNotThin { transition }),
        None => Ok(()),
    }
}
