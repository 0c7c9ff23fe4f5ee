// A copy of a net, and its fusions.
ghost use Rattle.std.specs.Prelude.{◌≡◌, ◌↔◌, []};
ghost use Rattle.net.specs.Nets.{drawn};
ghost use Rattle.net.specs.Strands.{HasCover};
ghost use Rattle.fold.specs.Foldings.{folded_original, folded_net, folded_steps, Fused};
ghost use Rattle.fold.specs.Steps.{fusion_of, Applies, emptied, step_of};

use crate::finding::{next_fusion, only_one};
use crate::folded::Folded;
use crate::fusion::Fusion;
use crate::note::Note;
use crate::replacing::replace;
use crate::side::Side;
use crate::step::Step;
use arrayvec::ArrayVec;
use net::{Net, lowest};

// The transition that loses its arcs by the fusion, and what the fusion notes.
fn plan(net: &Net, fusion: Fusion) -> (u8, Note)
    requires { Applies (drawn net.now) fusion }
    ensures transition { result.0 ≡ emptied (drawn net.now) fusion }
    ensures step { result.1 ≡ step_of (drawn net.now) fusion }
{
    match fusion {
        Fusion::Places { transition } => {
            let place = lowest(net.gives(transition)).unwrap_or(0);
            let set = net.takes(transition);
            let step = Step { place, set };
            (transition, Note { step })
        }
        Fusion::Transitions { place } => {
            let taker = only_one(net, Side::Taken, place).unwrap_or(0);
            let set = net.gives(taker);
            let step = Step { place, set };
            (taker, Note { step })
        }
    }
}

impl Folded {
    // A copy of the net, without steps.
    pub fn new(net: &Net) -> Folded
        ensures original { folded_original result ≡ drawn net.now }
        ensures folded { folded_net result ≡ drawn net.now }
        ensures empty { folded_steps result ≡ [] }
    {
        Folded {
            original: net.copy(),
            folded: net.copy(),
            steps: ArrayVec::new(),
        }
    }

    // Makes one fusion and tells which; or tells that none applies, and then nothing changes.
    pub fn fuse(&mut self) -> Option<Fusion>
        ensures answer { result ≡ fusion_of (folded_net self.old) }
        ensures after { Fused self.old result self.new }
        ensures covers { HasCover (folded_net self.new) ↔ HasCover (folded_original self.new) }
    {
        let fusion = next_fusion(&self.folded)?;
        let (transition, note) = plan(&self.folded, fusion);
        self.folded = replace(&self.folded, transition, note);
        self.steps.push(note);
        Some(fusion)
    }
}
