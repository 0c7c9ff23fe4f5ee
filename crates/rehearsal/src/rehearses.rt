// The rehearsal: the statement that the product is sold on stands in its contract.
ghost use Rattle.std.specs.Prelude.{◌≡◌, ◌↔◌};
ghost use Rattle.fold.specs.Foldings.{folded_net};
ghost use Rattle.fold.specs.Steps.{folding};
ghost use Rattle.net.specs.Nets.{drawn};
ghost use Rattle.net.specs.Strands.{HasCover};
ghost use Rattle.rehearsal.specs.Covers.{cover_outcome};
ghost use Rattle.rehearsal.specs.Rehearsals.{AnswersBy, LinesOf, WeightsOf};

use crate::covers::certified_by;
use crate::drives::drive;
use crate::folds::folded_by;
use crate::rehearsed::{Refused, Rehearsed};
use board::Board;
use net::Net;
use run::Entry;
use weight::Weight;

// Folds a copy of the net by so many fuse calls; certifies the net by its cover, starts a run on the board,
// and makes the calls of the log one after another, writing each answer beside its call.
// The clauses name the members of the bounds one by one: so each shows what it speaks of.
pub fn rehearse<B: Board, W: Weight>(
    net: Net,
    cover: &[u64],
    fuses: u32,
    board: B,
    weights: &[W],
    log: &mut [Entry<W>],
) -> Rehearsed<B>
    ensures answer { AnswersBy (cover_outcome (drawn net) cover.now) result.ended }
    ensures lines_follow_the_net { LinesOf B.Lines.lit B.Board.closed B.Board.signalled W.Weight.addition (drawn net) cover.now weights.now board log.old result.ended log.new }
    ensures weights_follow_the_fires { WeightsOf B.Lines.lit B.Board.closed B.Board.signalled W.Weight.addition (drawn net) cover.now weights.now board W.Weight.minus result.ended log.new }
    ensures folding_keeps_covers { (folded_net result.folded ≡ folding (drawn net) fuses) × (HasCover (folded_net result.folded) ↔ HasCover (drawn net)) }
{
    let folded = folded_by(&net, fuses);
    match certified_by(net, cover) {
        Ok(certified) => Rehearsed {
            folded,
            ended: Ok(drive(certified, board, weights, log)),
        },
        Err(why) => Rehearsed {
            folded,
            ended: Err(Refused { why, board }),
        },
    }
}
