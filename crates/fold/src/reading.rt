// Reading a folded net.
ghost use Rattle.std.specs.Prelude.{◌≡◌, ◌↔◌, length};
ghost use Rattle.std.specs.List.{slice_get};
ghost use Rattle.net.specs.Nets.{drawn};
ghost use Rattle.net.specs.Strands.{HasCover};
ghost use Rattle.fold.specs.Foldings.{folded_original, folded_net, folded_steps};

use crate::folded::Folded;
use crate::step::Step;
use net::Net;

impl Folded {
    // The net that was copied.
    pub fn original(&self) -> &Net
        ensures { drawn result.now ≡ folded_original self.now }
    {
        &self.original
    }

    // The net after the fusions made so far: it has a cover exactly when the original has one.
    pub fn net(&self) -> &Net
        ensures held { drawn result.now ≡ folded_net self.now }
        ensures covers { HasCover (drawn result.now) ↔ HasCover (folded_original self.now) }
    {
        &self.folded
    }

    // How many fusions were made.
    pub fn count(&self) -> u8
        ensures { result ≡ length (folded_steps self.now) }
    {
        self.steps.len() as u8
    }

    // What fusion `k` noted, numbered from 0 in the order made, if there are so many.
    pub fn step(&self, k: u8) -> Option<Step>
        ensures { result ≡ slice_get (folded_steps self.now) k }
    {
        self.steps.get(k as usize).map(|note| note.step)
    }
}
