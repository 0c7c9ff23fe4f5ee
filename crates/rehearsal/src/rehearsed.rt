// What a rehearsal gives back.
use fold::Folded;
use refusal::Refusal;
use run::Run;

// Why the cover was refused, with the board.
pub struct Refused<B> {
    pub why: Refusal,
    pub board: B,
}

// The folded net, and the run after the calls.
pub struct Rehearsed<B> {
    pub folded: Folded,
    pub ended: Result<Run<B>, Refused<B>>,
}
