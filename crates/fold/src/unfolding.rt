// Unfolding a set of places of the folded net.
ghost use Rattle.std.specs.Prelude.{◌≡◌, ◌^◌, ◌<◌, IfOk, Decides};
ghost use Rattle.fold.specs.Foldings.{folded_net, folded_steps, unfold_outcome, Unfolds};
ghost use Rattle.fold.specs.Steps.{put_back};

use crate::folded::Folded;
use crate::note::Note;
use crate::step::Step;
use net::within;
use refusal::Refusal;

// The set with the noted place in it where it meets the noted set, and without that place otherwise.
fn restored(set: u64, note: Note) -> u64
    ensures { result ≡ put_back note.place note.set set }
{
    let Step { place, set: noted } = note.step;
    let place = 1 << place;
    if noted & set == 0 {
        set ^ (set & place)
    } else {
        set | place
    }
}

impl Folded {
    // Whether every member of the set is a place of the net.
    fn has_places(&self, set: u64) -> bool
        ensures { Decides result (set < 2 ^ (folded_net self.now).places) }
    {
        within(set, self.folded.places())
    }

    // The set with the noted place of each step put back, the last step first. A strand comes out as a strand of the original net, or empty.
    pub fn unfold(&self, set: u64) -> Result<u64, Refusal>
        ensures answer { result ≡ unfold_outcome (folded_net self.now) (folded_steps self.now) set }
        ensures strand { IfOk result (Unfolds self.now set) }
    {
        if !self.has_places(set) {
            return Err(Refusal::PlaceOutside);
        }
        Ok(
            self.steps
                .iter()
                .rev()
                .fold(set, |set, note| restored(set, *note)),
        )
    }
}
