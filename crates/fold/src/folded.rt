ghost use Rattle.std.specs.Prelude.{◌≡◌, length};
ghost use Rattle.net.specs.Nets.{drawn};
ghost use Rattle.fold.specs.Steps.{folding, Noted};

use crate::note::Note;
use arrayvec::ArrayVec;
use net::Net;

// A net that was folded, the net that it was copied from, and what each fusion noted, in the order made.
// Each fusion takes all arcs from a transition that had some, so there are at most 64.
#[derive(Drop)]
pub struct Folded {
    pub(crate) original: Net,
    pub(crate) folded: Net,
    pub(crate) steps: ArrayVec<Note, 64>,
    ghost fused: { drawn folded ≡ folding (drawn original) (length steps.items) },
    ghost noted: { Noted (drawn original) steps.items (length steps.items) },
}
