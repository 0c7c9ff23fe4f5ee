// The relay board: it is never shut and ignores signals.
ghost use Rattle.std.specs.Prelude.{◌≡◌, replicate, None as Never, Ok as Done};
ghost use Rattle.net.specs.Sets.{exchange};
ghost use Rattle.board.specs.Wear.{unused, relay_at, relays_on, Switched};
ghost use Rattle.board.specs.RelaysFit.{relays_on_fits};
ghost use Rattle.std.proofs.Common.{ap};

use crate::board::Board;
use crate::lines::Lines;
use crate::relays::Relays;
use crate::relays::relay::Relay;
use crate::sets::exchanged;
use crate::shut::Shut;
use crate::snapshot::Snapshot;
use net::has;

impl Relays {
    // A relay board with every relay off and no wear.
    pub fn new() -> Relays
        ensures { result.relays ≡ replicate 64 unused }
    {
        Relays {
            relays: [Relay::new(); 64],
        }
    }

    // How often the relay has changed, up to 4294967295. There are 64 relays, so it is 0 from 64 on.
    pub fn wear(&self, relay: u8) -> u32
        ensures { result ≡ (relay_at self.now.relays relay).wear }
    {
        self.relay(relay).wear
    }

    // The relay, or one that is off and unworn where there is no such relay.
    fn relay(&self, n: u8) -> Relay
        ensures { result ≡ relay_at self.now.relays n }
    {
        self.relays.get(n as usize).copied().unwrap_or(Relay::new())
    }

    // Sets each relay on where the set has it, and else off.
    fn switch(&mut self, set: u64)
        ensures lines { relays_on self.new.relays ≡ set }
        ensures switched { Switched set self.old.relays self.new.relays }
    {
        for (n, relay) in self.relays.iter_mut().enumerate() {
            *relay = relay.switch(has(set, n as u8));
        }
    }
}

impl Lines for Relays {
    ghost lit = { λ b. relays_on b.relays };

    ghost bounded = { λ b. relays_on_fits b.relays b.long };

    fn read(&self, line: u8) -> bool
        ensures relay { result ≡ (relay_at self.now.relays line).on }
    {
        self.relay(line).on
    }
}

impl Board for Relays {
    ghost closed = { λ _. Never };

    ghost signalled = { λ b _ _ after. after ≡ b };

    ghost quiet = { λ b channel event after same. ap (λ (r : Self). relays_on r.relays) same };

    fn shut(&self) -> Option<u8>
        ensures never { result ≡ Never }
    {
        None
    }

    fn lay(&mut self, set: u64)
        ensures lines { relays_on self.new.relays ≡ set }
        ensures switched { Switched set self.old.relays self.new.relays }
    {
        self.switch(set);
    }

    fn exchange(&mut self, dark: u64, light: u64) -> Result<(), Shut>
        ensures done { result ≡ Done tt }
        ensures lines { relays_on self.new.relays ≡ exchange (relays_on self.old.relays) dark light }
        ensures switched { Switched (exchange (relays_on self.old.relays) dark light) self.old.relays self.new.relays }
    {
        let lit = Snapshot::of(self).set();
        self.switch(exchanged(lit, dark, light));
        Ok(())
    }

    fn signal(&mut self, _channel: u8, _event: u8)
        ensures ignored { self.new ≡ self.old }
    {
        // no signal means anything to this board
    }
}
