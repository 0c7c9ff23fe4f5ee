// The net after a fusion: a set of places stands for a place, and a transition loses its arcs.
ghost use Rattle.std.specs.Prelude.{◌≡◌, Ok};
ghost use Rattle.net.specs.Drawings.{with_arcs, arcs_outcome};
ghost use Rattle.net.specs.Nets.{drawn, Kept};
ghost use Rattle.fold.specs.Fusions.{swapped, replaced};

use crate::note::Note;
use crate::step::Step;
use net::{Net, has};

// The set with the noted places in place of the noted place, where that is in it.
fn swap(set: u64, note: Note) -> u64
    ensures { result ≡ swapped note.place note.set set }
{
    let Step { place, set: noted } = note.step;
    if has(set, place) {
        (set ^ (set & (1 << place))) | noted
    } else {
        set
    }
}

// The marks, where a mark on the noted place moves to the noted places.
fn moved_marks(net: &Net, note: Note) -> u64
    ensures { result ≡ swapped note.place note.set (drawn net.now).marks }
{
    swap(net.marks(), note)
}

// Gives arcs that the net does not refuse.
fn give(net: &mut Net, transition: u8, taken: u64, given: u64)
    requires { arcs_outcome (drawn net.old) transition taken given ≡ Ok tt }
    ensures { drawn net.new ≡ with_arcs (drawn net.old) transition taken given }
{
    let _ = net.arcs(transition, taken, given);
}

// The net with the noted places in place of the noted place in every set, and without the arcs of the transition.
pub(crate) fn replace(net: &Net, transition: u8, note: Note) -> Net
    requires { Kept (replaced (drawn net.now) transition note.place note.set) }
    ensures { drawn result ≡ replaced (drawn net.now) transition note.place note.set }
{
    // a loop and no `fold`: its invariant says what the net is at each turn, which a closure would ask of every net
    let mut after = Net::new();
    let _ = after.draw(net.places(), net.transitions(), moved_marks(net, note));
    for t in 0..net.transitions() {
        if t != transition {
            give(
                &mut after,
                t,
                swap(net.takes(t), note),
                swap(net.gives(t), note),
            );
        }
    }
    after
}
