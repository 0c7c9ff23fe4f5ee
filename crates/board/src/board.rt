// Lines that can also be switched.
ghost use Rattle.std.specs.Prelude.{◌≡◌, ℕ, Option as Maybe};
ghost use Rattle.board.specs.Rules.{Laid, Exchanged};

use crate::lines::Lines;
use crate::shut::Shut;

pub trait Board: Lines {
    // the shut channel, if any: while there is one, no lines are exchanged
    ghost closed: { Self → Maybe ℕ };

    // the board's own rule for a signal: the board before, the channel, the event and the board after
    ghost signalled: { Self → ℕ → ℕ → Self → Type 0 };

    // The shut channel, if any.
    fn shut(&self) -> Option<u8>
        ensures { result ≡ closed self.now };

    // Lights the lines of the set and no others, whether a channel is shut or not.
    fn lay(&mut self, set: u64)
        ensures { Laid Self.Lines.lit closed set self.old self.new };

    // Turns the lines of `dark` off, then those of `light` on; or, where a channel is shut, does nothing and tells the channel.
    // Two parameters and no struct: each call would have to write `dark` and `light` out.
    fn exchange(&mut self, dark: u64, light: u64) -> Result<(), Shut>
        ensures { Exchanged Self.Lines.lit closed dark light self.old result self.new };

    // Brings an event on a channel to the board.
    fn signal(&mut self, channel: u8, event: u8)
        ensures { signalled self.old channel event self.new };

    // a signal keeps the lit set
    ghost quiet: { (b : Self) (channel event : ℕ) (after : Self) → signalled b channel event after → Self.Lines.lit after ≡ Self.Lines.lit b };
}
