// Reading a net.
ghost use Rattle.std.specs.Prelude.{◌≡◌};
ghost use Rattle.net.specs.Arcs.{arcs_at};
ghost use Rattle.net.specs.Nets.{drawn};

use crate::net::Net;
use crate::transition::{BARE, Transition};

impl Net {
    // How many places the net has.
    pub fn places(&self) -> u8
        ensures { result ≡ (drawn self.now).places }
    {
        self.places
    }

    // How many transitions the net has.
    pub fn transitions(&self) -> u8
        ensures { result ≡ (drawn self.now).transitions }
    {
        self.transitions
    }

    // The places that are marked at the start.
    pub fn marks(&self) -> u64
        ensures { result ≡ (drawn self.now).marks }
    {
        self.marks
    }

    // Transition `t`; one without arcs where there is no such transition.
    fn transition(&self, t: u8) -> Transition
        ensures { result ≡ arcs_at self.now.table t }
    {
        self.table.get(t as usize).copied().unwrap_or(BARE)
    }

    // The places that transition `t` takes; none where there is no such transition.
    pub fn takes(&self, t: u8) -> u64
        ensures { result ≡ (drawn self.now).takes t }
    {
        self.transition(t).taken
    }

    // The places that transition `t` gives; none where there is no such transition.
    pub fn gives(&self, t: u8) -> u64
        ensures { result ≡ (drawn self.now).gives t }
    {
        self.transition(t).given
    }

    // The same net once more. A derived `clone` could fail; and `Net` is not `Copy`, so a net that was moved onto a sheet is given no more arcs.
    pub fn copy(&self) -> Net
        ensures { drawn result ≡ drawn self.now }
    {
        Net {
            places: self.places,
            transitions: self.transitions,
            marks: self.marks,
            table: self.table,
        }
    }
}
