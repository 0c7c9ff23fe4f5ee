// A copy of a net, folded.
ghost use Rattle.std.specs.Prelude.{◌≡◌, ◌↔◌};
ghost use Rattle.fold.specs.Foldings.{folded_original, folded_net};
ghost use Rattle.fold.specs.Steps.{folding};
ghost use Rattle.net.specs.Nets.{drawn};
ghost use Rattle.net.specs.Strands.{HasCover};

use fold::Folded;
use net::Net;

// A copy of the net after so many fuse calls, with or without a step.
pub(crate) fn folded_by(net: &Net, fuses: u32) -> Folded
    ensures original { folded_original result ≡ drawn net.now }
    ensures folded { folded_net result ≡ folding (drawn net.now) fuses }
    ensures covers { HasCover (folded_net result) ↔ HasCover (drawn net.now) }
{
    let mut folded = Folded::new(net);
    for _call in 0..fuses {
        let _ = folded.fuse();
    }
    folded
}
