// A run, whether it is going or halted.
ghost use Rattle.std.specs.Prelude.{◌≡◌, true};
ghost use Rattle.std.specs.List.{slice_get};
ghost use Rattle.cover.specs.Certificates.{certified_strands};
ghost use Rattle.net.specs.Sets.{has};
ghost use Rattle.run.specs.Firing.{agrees, station_outcome};
ghost use Rattle.run.specs.Runs.{run_lit};

use crate::places::lowest_with;
use crate::runs::Driven;
use board::{Board, Lines};
use refusal::Refusal;

impl<B: Board, S> Driven<B, S> {
    // Hands an event on a channel to the board.
    pub fn signal(&mut self, channel: u8, event: u8)
        ensures after { B.Board.signalled self.old.board channel event self.new.board }
        ensures kept { self.new.certified ≡ self.old.certified }
    {
        self.board.signal(channel, event);
    }

    // The lowest lit place of strand `k`, if any; refused where there is no such strand.
    pub fn station(&self, k: u8) -> Result<Option<u8>, Refusal>
        ensures { result ≡ station_outcome (λ p. agrees true (has (B.Lines.lit self.now.board) p)) (slice_get (certified_strands self.now.certified) k) }
    {
        let strand = self.certified.strand(k).ok_or(Refusal::NoSuchStrand)?;
        Ok(lowest_with(&self.board, strand, true))
    }
}

impl<B, S: Drop> Driven<B, S> {
    // The same run in another state.
    pub(crate) fn into_state<T>(self, state: T) -> Driven<B, T>
        ensures board { result.board ≡ self.board }
        ensures kept { result.certified ≡ self.certified }
    {
        let Driven {
            certified,
            board,
            state: _,
        } = self;
        Driven {
            certified,
            board,
            state,
        }
    }
}

impl<B: Board, S> Lines for Driven<B, S> {
    ghost lit = { run_lit B.Lines.lit };

    ghost bounded = { λ run. B.Lines.bounded run.board };

    fn read(&self, line: u8) -> bool {
        self.board.read(line)
    }
}
