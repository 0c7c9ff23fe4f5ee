// The turned board, over any board.
ghost use Rattle.std.specs.Prelude.{◌≡◌};
ghost use Rattle.net.specs.Sets.{union};
ghost use Rattle.board.specs.Rules.{Laid, Exchanged};
ghost use Rattle.board.specs.Turns.{turn, light_below, turned_lit, turned_shut, Signalled};
ghost use Rattle.std.proofs.lemmas.Nat.{xor_lt};
ghost use Rattle.board.specs.Quiet.{turned_quiet};

use crate::board::Board;
use crate::lines::Lines;
use crate::shut::Shut;
use crate::turned::Turned;
use net::has;

impl<B> Turned<B> {
    // A board on which the lines of the set are turned over, over a board.
    pub fn new(set: u64, below: B) -> Turned<B>
        ensures set { result.set ≡ set }
        ensures below { result.below ≡ below }
    {
        Turned { set, below }
    }

    // The board below.
    pub fn below(&self) -> &B
        ensures { result.now ≡ self.now.below }
    {
        &self.below
    }

    // What a set of lines above is below, and a set below is above.
    fn turned_over(&self, set: u64) -> u64
        ensures { result ≡ turn set self.now.set }
    {
        set ^ self.set
    }

    // What an exchange lights below.
    fn light_below(&self, dark: u64, light: u64) -> u64
        ensures { result ≡ light_below dark light self.now.set }
    {
        (dark | light) & self.turned_over(light)
    }
}

impl<B: Lines> Lines for Turned<B> {
    ghost lit = { turned_lit B.Lines.lit };

    ghost bounded = { λ b. xor_lt 64 _ _ (B.Lines.bounded b.below) b.fits };

    fn read(&self, line: u8) -> bool {
        self.below.read(line) != has(self.set, line)
    }
}

impl<B: Board> Board for Turned<B> {
    ghost closed = { turned_shut B.Board.closed };

    ghost signalled = { Signalled B.Board.signalled };

    ghost quiet = { turned_quiet B.Lines.lit B.Board.signalled B.Board.quiet };

    fn shut(&self) -> Option<u8> {
        self.below.shut()
    }

    fn lay(&mut self, set: u64)
        ensures below { Laid B.Lines.lit B.Board.closed (turn set self.old.set) self.old.below self.new.below }
        ensures kept { self.new.set ≡ self.old.set }
    {
        let below = self.turned_over(set);
        self.below.lay(below);
    }

    fn exchange(&mut self, dark: u64, light: u64) -> Result<(), Shut>
        ensures below { Exchanged B.Lines.lit B.Board.closed (union dark light) (light_below dark light self.old.set) self.old.below result self.new.below }
        ensures kept { self.new.set ≡ self.old.set }
    {
        let lit = self.light_below(dark, light);
        self.below.exchange(dark | light, lit)
    }

    fn signal(&mut self, channel: u8, event: u8) {
        self.below.signal(channel, event);
    }
}
