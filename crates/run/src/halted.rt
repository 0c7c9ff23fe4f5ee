// A run that is halted.
ghost use Rattle.std.specs.Prelude.{◌≡◌};
ghost use Rattle.board.specs.Rules.{Laid};
ghost use Rattle.cover.specs.Certificates.{certified_net};

use crate::runs::{Driven, Fires, Going, Halted, Stands};
use board::Board;

impl<B: Board> Halted<B> {
    // Lays the marks of the net again.
    pub fn home(&mut self)
        ensures laid { Laid B.Lines.lit B.Board.closed (certified_net self.old.certified).marks self.old.board self.new.board }
        ensures kept { self.new.certified ≡ self.old.certified }
    {
        let marks = self.certified.net().marks();
        self.board.lay(marks);
    }

    // The run, going again.
    pub fn resume(self) -> Going<B>
        ensures board { result.board ≡ self.board }
        ensures kept { result.certified ≡ self.certified }
    {
        self.into_state(Fires)
    }

    // Ends the run and gives the board back.
    pub fn stop(self) -> B
        ensures { result ≡ self.board }
    {
        let Driven {
            certified: _,
            board,
            state: Stands,
        } = self;
        board
    }
}
