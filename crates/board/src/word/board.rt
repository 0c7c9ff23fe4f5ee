// The word board: it is never shut and ignores signals.
ghost use Rattle.std.specs.Prelude.{◌≡◌, None as Never, Ok as Done};
ghost use Rattle.net.specs.Sets.{exchange};
ghost use Rattle.std.proofs.Common.{ap};

use crate::board::Board;
use crate::lines::Lines;
use crate::sets::exchanged;
use crate::shut::Shut;
use crate::word::Word;
use net::has;

impl Word {
    // A word board with no line lit.
    pub fn new() -> Word
        ensures { result.set ≡ 0 }
    {
        Word { set: 0 }
    }
}

impl Lines for Word {
    ghost lit = { λ w. w.set };

    ghost bounded = { λ w. w.fits };

    fn read(&self, line: u8) -> bool {
        has(self.set, line)
    }
}

impl Board for Word {
    ghost closed = { λ _. Never };

    ghost signalled = { λ w _ _ after. after ≡ w };

    ghost quiet = { λ w channel event after same. ap (λ (b : Self). b.set) same };

    fn shut(&self) -> Option<u8>
        ensures never { result ≡ Never }
    {
        None
    }

    fn lay(&mut self, set: u64)
        ensures word { self.new.set ≡ set }
    {
        self.set = set;
    }

    fn exchange(&mut self, dark: u64, light: u64) -> Result<(), Shut>
        ensures done { result ≡ Done tt }
        ensures word { self.new.set ≡ exchange self.old.set dark light }
    {
        self.set = exchanged(self.set, dark, light);
        Ok(())
    }

    fn signal(&mut self, _channel: u8, _event: u8)
        ensures ignored { self.new ≡ self.old }
    {
        // no signal means anything to this board
    }
}
