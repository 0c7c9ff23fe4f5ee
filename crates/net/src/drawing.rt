// Drawing a net, and giving arcs to its transitions. The net is written whole, so that it keeps its invariant; a refused call leaves it as it was.
ghost use Rattle.std.specs.Prelude.{◌≡◌};
ghost use Rattle.net.specs.Nets.{drawn};
ghost use Rattle.net.specs.Drawings.{without_arcs, with_arcs, draw_outcome, arcs_outcome, Becomes};

use crate::net::Net;
use crate::sets::within;
use crate::transition::{BARE, Transition};
use refusal::Refusal;

// A net has at most so many places, and at most so many transitions.
const MOST: u8 = 64;

impl Net {
    // The net of 0 places and 0 transitions.
    pub fn new() -> Net
        ensures { drawn result ≡ without_arcs 0 0 0 }
    {
        Net {
            places: 0,
            transitions: 0,
            marks: 0,
            table: [BARE; 64],
        }
    }

    // Replaces the net by one of so many places and transitions, with these marked places and no arcs.
    pub fn draw(&mut self, places: u8, transitions: u8, marks: u64) -> Result<(), Refusal>
        ensures answer { result ≡ draw_outcome places transitions marks }
        ensures after { Becomes self.old (without_arcs places transitions marks) result self.new }
    {
        if places > MOST {
            return Err(Refusal::TooManyPlaces);
        }
        if transitions > MOST {
            return Err(Refusal::TooManyTransitions);
        }
        if !within(marks, places) {
            return Err(Refusal::MarkOutside);
        }
        *self = Net {
            places,
            transitions,
            marks,
            table: [BARE; 64],
        };
        Ok(())
    }

    // Replaces the set that the transition takes, and the set that it gives. Two parameters: each call would have to name them in a struct.
    pub fn arcs(&mut self, transition: u8, taken: u64, given: u64) -> Result<(), Refusal>
        ensures answer { result ≡ arcs_outcome (drawn self.old) transition taken given }
        ensures after { Becomes self.old (with_arcs (drawn self.old) transition taken given) result self.new }
    {
        if transition >= self.transitions {
            return Err(Refusal::NoSuchTransition);
        }
        if !within(taken, self.places) || !within(given, self.places) {
            return Err(Refusal::ArcOutside);
        }
        if taken & given != 0 {
            return Err(Refusal::TakenAndGiven);
        }
        // one entry is written, at an index that the caller gives
        let mut table = self.table;
        table[transition as usize] = Transition { taken, given };
        *self = Net {
            places: self.places,
            transitions: self.transitions,
            marks: self.marks,
            table,
        };
        Ok(())
    }
}
