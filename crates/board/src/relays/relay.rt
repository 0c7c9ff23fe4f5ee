// One relay.
ghost use Rattle.std.specs.Prelude.{◌≡◌};
ghost use Rattle.board.specs.Wear.{unused, switched};

// Whether it is on, and how often it has changed; from 4294967295 on, changes are no longer counted.
#[derive(Clone, Copy)]
pub struct Relay {
    pub on: bool,
    pub wear: u32,
}

impl Relay {
    // A relay that is off and has never changed.
    pub fn new() -> Relay
        ensures { result ≡ unused }
    {
        Relay { on: false, wear: 0 }
    }

    // The relay after it is set to a state.
    pub fn switch(self, on: bool) -> Relay
        ensures { result ≡ switched on self }
    {
        if self.on == on {
            self
        } else {
            Relay {
                on,
                wear: self.wear.saturating_add(1),
            }
        }
    }
}
