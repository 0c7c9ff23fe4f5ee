// One call of a run, with its answer.
ghost use Rattle.std.specs.Prelude.{◌≡◌};
ghost use Rattle.cover.specs.Certificates.{certified_net, certified_strands};
ghost use Rattle.net.specs.Sets.{has};
ghost use Rattle.rehearsal.specs.Shared.{asked};
ghost use Rattle.run.specs.States.{state_of, certified_of, going_on, halted_on, Moved, Step};

use board::{Board, Lines};
use run::{Answer, Call, Driven, Going, Halted, Run};
use weight::{Weight, weigh};

// One of the calls that every run has, going or halted.
fn ask<B: Board, S, W: Weight>(run: &mut Driven<B, S>, call: Call, weights: &[W]) -> Answer<W>
    ensures answer { result ≡ asked W.Weight.addition (certified_strands run.old.certified) weights.now (has (B.Lines.lit run.old.board)) call }
    ensures moved { Moved B.Lines.lit B.Board.closed B.Board.signalled (certified_net run.old.certified) call result run.old.board run.new.board }
    ensures kept { run.new.certified ≡ run.old.certified }
{
    match call {
        Call::Signal(channel, event) => {
            run.signal(channel, event);
            Answer::Done
        }
        Call::Read(line) => Answer::Lit(run.read(line)),
        Call::Station(k) => match run.station(k) {
            Ok(place) => Answer::At(place),
            Err(why) => Answer::Refused(why),
        },
        Call::Weigh => Answer::Weight(weigh(run, weights)),
        Call::Fire(_) | Call::Halt | Call::Resume | Call::Home => Answer::Absent,
    }
}

// One call of a run that goes.
fn step_going<B: Board, W: Weight>(
    mut run: Going<B>,
    call: Call,
    weights: &[W],
) -> (Run<B>, Answer<W>)
    ensures step { Step B.Lines.lit B.Board.closed B.Board.signalled W.Weight.addition (certified_net run.certified) (certified_strands run.certified) weights.now call result.1 (going_on run.board) (state_of result.0) }
    ensures kept { certified_of result.0 ≡ run.certified }
{
    match call {
        Call::Fire(t) => match run.fire(t) {
            Ok(()) => (Run::Going(run), Answer::Done),
            Err(why) => (Run::Going(run), Answer::Refused(why)),
        },
        Call::Halt => (Run::Halted(run.halt()), Answer::Done),
        _ => {
            let answer = ask(&mut run, call, weights);
            (Run::Going(run), answer)
        }
    }
}

// One call of a run that is halted.
fn step_halted<B: Board, W: Weight>(
    mut run: Halted<B>,
    call: Call,
    weights: &[W],
) -> (Run<B>, Answer<W>)
    ensures step { Step B.Lines.lit B.Board.closed B.Board.signalled W.Weight.addition (certified_net run.certified) (certified_strands run.certified) weights.now call result.1 (halted_on run.board) (state_of result.0) }
    ensures kept { certified_of result.0 ≡ run.certified }
{
    match call {
        Call::Resume => (Run::Going(run.resume()), Answer::Done),
        Call::Home => {
            run.home();
            (Run::Halted(run), Answer::Done)
        }
        _ => {
            let answer = ask(&mut run, call, weights);
            (Run::Halted(run), answer)
        }
    }
}

// One call of a run.
pub(crate) fn step<B: Board, W: Weight>(
    run: Run<B>,
    call: Call,
    weights: &[W],
) -> (Run<B>, Answer<W>)
    ensures step { Step B.Lines.lit B.Board.closed B.Board.signalled W.Weight.addition (certified_net (certified_of run)) (certified_strands (certified_of run)) weights.now call result.1 (state_of run) (state_of result.0) }
    ensures kept { certified_of result.0 ≡ certified_of run }
{
    match run {
        Run::Going(going) => step_going(going, call, weights),
        Run::Halted(halted) => step_halted(halted, call, weights),
    }
}
