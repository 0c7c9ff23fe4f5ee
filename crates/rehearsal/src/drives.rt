// A whole run: the calls of a list made one after another.
ghost use Rattle.std.specs.Prelude.{◌≡◌};
ghost use Rattle.cover.specs.Certificates.{certified_net, certified_strands};
ghost use Rattle.run.specs.Follows.{LinesFollowTheNet, WeightsFollowTheFires};
ghost use Rattle.run.specs.Log.{calls};
ghost use Rattle.run.specs.States.{state_of, certified_of};

use crate::steps::step;
use board::Board;
use cover::Certified;
use run::{Entry, Going, Run};
use weight::Weight;

// Starts a run and makes the calls of the log one after another, writing each answer beside its call.
pub(crate) fn drive<B: Board, W: Weight>(
    certified: Certified,
    board: B,
    weights: &[W],
    log: &mut [Entry<W>],
) -> Run<B>
    ensures certificate_kept { certified_of result ≡ certified }
    ensures calls_kept { calls log.new ≡ calls log.old }
    ensures lines_follow_the_net { LinesFollowTheNet B.Lines.lit B.Board.closed B.Board.signalled W.Weight.addition (certified_net certified) (certified_strands certified) weights.now board log.new (state_of result) }
    ensures weights_follow_the_fires { WeightsFollowTheFires W.Weight.addition W.Weight.minus (certified_net certified) log.new (B.Lines.lit (state_of result).board) }
{
    let mut run = Run::Going(Going::start(certified, board));
    for entry in log.iter_mut() {
        let (next, answer) = step(run, entry.call, weights);
        run = next;
        entry.answer = answer;
    }
    run
}
