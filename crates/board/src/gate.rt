// The gate: a guard with a channel of its own, over any board.
ghost use Rattle.std.specs.Prelude.{◌≡◌};
ghost use Rattle.board.specs.Guards.{stepped, gate_lit, gate_shut, SameGuard, Signalled};
ghost use Rattle.board.specs.Rules.{Laid, Exchanged};
ghost use Rattle.board.specs.Quiet.{gate_quiet};

use crate::board::Board;
use crate::lines::Lines;
use crate::shut::Shut;

// The state of a gate. It lets exchanges through only when it is Ready.
#[derive(Clone, Copy, PartialEq, Eq, Debug)]
pub enum Guard {
    Ready,
    Tripped,
    Waiting,
}

// A gate: its channel, its state and the board below. While it is not Ready it is shut with its channel.
#[derive(Drop)]
pub struct Gate<B> {
    channel: u8,
    guard: Guard,
    below: B,
}

impl<B> Gate<B> {
    // A gate that is Ready, over a board.
    pub fn new(channel: u8, below: B) -> Gate<B>
        ensures { result ≡ record { channel = channel; guard = Guard.Ready; below = below } }
    {
        Gate {
            channel,
            guard: Guard::Ready,
            below,
        }
    }

    // The state of the gate.
    pub fn guard(&self) -> Guard
        ensures { result ≡ self.now.guard }
    {
        self.guard
    }

    // The board below.
    pub fn below(&self) -> &B
        ensures { result.now ≡ self.now.below }
    {
        &self.below
    }

    // What an event on the gate's own channel does.
    fn step(&mut self, event: u8)
        ensures { self.new ≡ record { channel = self.old.channel; guard = stepped self.old.guard event; below = self.old.below } }
    {
        match (self.guard, event) {
            (_, 1) => self.guard = Guard::Tripped,
            (Guard::Tripped, 2) => self.guard = Guard::Waiting,
            (Guard::Waiting, 3) => self.guard = Guard::Ready,
            (_, _) => {}
        }
    }
}

impl<B: Lines> Lines for Gate<B> {
    ghost lit = { gate_lit B.Lines.lit };

    ghost bounded = { λ g. B.Lines.bounded g.below };

    fn read(&self, line: u8) -> bool {
        self.below.read(line)
    }
}

impl<B: Board> Board for Gate<B> {
    ghost closed = { gate_shut B.Board.closed };

    ghost signalled = { Signalled B.Board.signalled };

    ghost quiet = { gate_quiet B.Lines.lit B.Board.signalled B.Board.quiet };

    fn shut(&self) -> Option<u8> {
        match self.guard {
            Guard::Ready => self.below.shut(),
            _ => Some(self.channel),
        }
    }

    fn lay(&mut self, set: u64)
        ensures laid { Laid (gate_lit B.Lines.lit) (gate_shut B.Board.closed) set self.old self.new }
        ensures kept { SameGuard self.old self.new }
    {
        self.below.lay(set);
    }

    fn exchange(&mut self, dark: u64, light: u64) -> Result<(), Shut>
        ensures exchanged { Exchanged (gate_lit B.Lines.lit) (gate_shut B.Board.closed) dark light self.old result self.new }
        ensures kept { SameGuard self.old self.new }
    {
        match self.guard {
            Guard::Ready => self.below.exchange(dark, light),
            _ => Err(Shut {
                channel: self.channel,
            }),
        }
    }

    fn signal(&mut self, channel: u8, event: u8) {
        if channel == self.channel {
            self.step(event);
        } else {
            self.below.signal(channel, event);
        }
    }
}
