// Finding the fusion that comes next.
ghost use Rattle.std.specs.Prelude.{◌≡◌, ◌<◌};
ghost use Rattle.net.specs.Lowest.{lowest};
ghost use Rattle.net.specs.Nets.{drawn};
ghost use Rattle.net.specs.Sets.{has};
ghost use Rattle.fold.specs.Fusions.{touches, contains, exchanges_one, place_fusible, arcs_on, sole_on, transition_fusible};
ghost use Rattle.fold.specs.Steps.{fusion_of};

use crate::fusion::Fusion;
use crate::side::Side;
use net::{Net, has};

// The places that the transition takes or gives.
fn touched(net: &Net, transition: u8) -> u64
    ensures { result ≡ touches (drawn net.now) transition }
{
    net.takes(transition) | net.gives(transition)
}

// Whether the set has every member of the other.
fn has_all(set: u64, other: u64) -> bool
    ensures { result ≡ contains set other }
{
    set & other == other
}

// Whether the transition takes exactly one place and gives exactly one, which are not both marked.
fn one_for_one(net: &Net, transition: u8) -> bool
    ensures { result ≡ exchanges_one (drawn net.now) transition }
{
    net.takes(transition).count_ones() == 1
        && net.gives(transition).count_ones() == 1
        && !has_all(net.marks(), touched(net, transition))
}

// Whether transition `u` touches both places that `t` exchanges.
fn touches_both(net: &Net, u: u8, t: u8) -> bool
    ensures { result ≡ contains (touches (drawn net.now) u) (touches (drawn net.now) t) }
{
    has_all(touched(net, u), touched(net, t))
}

// The lowest transition that allows a place fusion.
// Labelled loops, as a rule of the project asks: the inner one goes on with the next transition where another touches both places.
fn fusible_transition(net: &Net) -> Option<u8>
    ensures { result ≡ lowest (drawn net.now).transitions (place_fusible (drawn net.now)) }
{
    let transitions = net.transitions();
    'search: {
        'next: for t in 0..transitions {
            if !one_for_one(net, t) {
                continue 'next;
            }
            for u in 0..transitions {
                if u != t && touches_both(net, u, t) {
                    continue 'next;
                }
            }
            break 'search Some(t);
        }
        None
    }
}

// The set on that side of the transition.
fn set_on(net: &Net, side: Side, transition: u8) -> u64
    ensures { result ≡ arcs_on (drawn net.now) side transition }
{
    match side {
        Side::Taken => net.takes(transition),
        Side::Given => net.gives(transition),
    }
}

// The transition that has the place on that side, if exactly one does.
pub(crate) fn only_one(net: &Net, side: Side, place: u8) -> Option<u8>
    ensures { result ≡ sole_on (drawn net.now) side place }
{
    let on_side = |&t: &u8| has(set_on(net, side, t), place);
    let mut transitions = 0..net.transitions();
    let first = transitions.find(on_side)?;
    match transitions.find(on_side) {
        None => Some(first),
        Some(_) => None,
    }
}

// Whether the place allows a transition fusion. Its caller gives only places of the net, so it has no test for any other.
fn joins_two(net: &Net, place: u8) -> bool
    requires { place < 64 }
    ensures { result ≡ transition_fusible (drawn net.now) place }
{
    if has(net.marks(), place) {
        return false;
    }
    let Some(u) = only_one(net, Side::Given, place) else {
        return false;
    };
    let Some(v) = only_one(net, Side::Taken, place) else {
        return false;
    };
    net.takes(v) == 1 << place && net.gives(v) != 0 && net.gives(v) & touched(net, u) == 0
}

// The lowest place that allows a transition fusion.
fn fusible_place(net: &Net) -> Option<u8>
    ensures { result ≡ lowest (drawn net.now).places (transition_fusible (drawn net.now)) }
{
    (0..net.places()).find(|place| joins_two(net, *place))
}

// The fusion that comes next, if one applies: place fusion goes first.
pub(crate) fn next_fusion(net: &Net) -> Option<Fusion>
    ensures { result ≡ fusion_of (drawn net.now) }
{
    fusible_transition(net)
        .map(|transition| Fusion::Places { transition })
        .or_else(|| fusible_place(net).map(|place| Fusion::Transitions { place }))
}
