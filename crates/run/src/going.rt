// A run that is going.
ghost use Rattle.std.specs.Prelude.{◌≡◌};
ghost use Rattle.board.specs.Rules.{Laid};
ghost use Rattle.cover.specs.Certificates.{certified_net};
ghost use Rattle.run.specs.Firing.{fire_outcome, Fired};

use crate::places::lowest_with;
use crate::runs::{Driven, Fires, Going, Halted, Stands};
use board::Board;
use cover::Certified;
use refusal::Refusal;

impl<B: Board> Going<B> {
    // Lays the marks of a certified net on a board.
    pub fn start(certified: Certified, mut board: B) -> Going<B>
        ensures laid { Laid B.Lines.lit B.Board.closed (certified_net certified).marks board result.board }
        ensures held { result.certified ≡ certified }
    {
        board.lay(certified.net().marks());
        Driven {
            certified,
            board,
            state: Fires,
        }
    }

    // Exchanges what the transition takes for what it gives, unless something refuses.
    pub fn fire(&mut self, transition: u8) -> Result<(), Refusal>
        ensures answer { result ≡ fire_outcome (certified_net self.old.certified) (B.Lines.lit self.old.board) (B.Board.closed self.old.board) transition }
        ensures after { Fired B.Lines.lit B.Board.closed (certified_net self.old.certified) transition self.old.board result self.new.board }
        ensures kept { self.new.certified ≡ self.old.certified }
    {
        let net = self.certified.net();
        if transition >= net.transitions() {
            return Err(Refusal::NoSuchTransition);
        }
        let taken = net.takes(transition);
        let given = net.gives(transition);
        if let Some(place) = lowest_with(&self.board, taken, false) {
            return Err(Refusal::Unlit { place });
        }
        if let Some(place) = lowest_with(&self.board, given, true) {
            return Err(Refusal::Occupied { place });
        }
        self.board.exchange(taken, given)?;
        Ok(())
    }

    // The run, standing still.
    pub fn halt(self) -> Halted<B>
        ensures board { result.board ≡ self.board }
        ensures kept { result.certified ≡ self.certified }
    {
        self.into_state(Stands)
    }
}
