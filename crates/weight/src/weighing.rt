// What lines weigh, and how far the transitions of a net change it.
ghost use Rattle.std.specs.Prelude.{◌≡◌, Decides, slice_index_or};
ghost use Rattle.net.specs.Nets.{drawn};
ghost use Rattle.weight.specs.Weights.{weight_of, drift_of, Balances};

use crate::weight::Weight;
use board::{Lines, Snapshot};
use net::Net;

// The entry of the line, or the neutral weight where the list is too short.
fn entry<W: Weight>(list: &[W], line: u8) -> W
    ensures { result ≡ slice_index_or list.now line W.Weight.addition.neutral }
{
    list.get(line as usize).copied().unwrap_or(W::NEUTRAL)
}

// The sum of entry n of the list for every lit line n.
pub fn weigh<W: Weight, L: Lines>(lines: &L, list: &[W]) -> W
    ensures { result ≡ weight_of W.Weight.addition (L.Lines.lit lines.now) list.now }
{
    // The test stands inside the fold: a filter before it would be a loop of its own, and slower.
    (0..64).fold(
        W::NEUTRAL,
        |sum, line| if lines.read(line) {
            sum.add(entry(list, line))
        } else {
            sum
        },
    )
}

// The sum of the entries that the transition gives, plus the inverse of the sum of those that it takes;
// neutral where there is no such transition.
pub fn drift<W: Weight>(net: &Net, transition: u8, list: &[W]) -> W
    ensures { result ≡ drift_of W.Weight.addition W.Weight.minus (drawn net.now) list.now transition }
{
    if transition >= net.transitions() {
        return W::NEUTRAL;
    }
    let given = weigh(&Snapshot::new(net.gives(transition)), list);
    let taken = weigh(&Snapshot::new(net.takes(transition)), list);
    given.add(taken.inverse())
}

// Whether the weight is the neutral one.
fn is_neutral<W: Weight>(weight: W) -> bool
    ensures { Decides result (weight ≡ W.Weight.addition.neutral) }
{
    weight == W::NEUTRAL
}

// The lowest transition whose drift is not neutral, or none.
pub fn balance<W: Weight>(net: &Net, list: &[W]) -> Option<u8>
    ensures { Balances W.Weight.addition W.Weight.minus (drawn net.now) list.now result }
{
    (0..net.transitions()).find(|&transition| !is_neutral(drift(net, transition, list)))
}
