// The calls on a run, and their answers.
use refusal::Refusal;

#[derive(Clone, Copy)]
pub enum Call {
    Fire(u8),
    Signal(u8, u8),
    Halt,
    Resume,
    Home,
    Read(u8),
    Station(u8),
    Weigh,
}

// `Absent` where the run has no such call at that moment.
#[derive(Clone, Copy)]
pub enum Answer<W> {
    Done,
    Refused(Refusal),
    Lit(bool),
    At(Option<u8>),
    Weight(W),
    Absent,
}

// A call with its answer.
#[derive(Clone, Copy)]
pub struct Entry<W> {
    pub call: Call,
    pub answer: Answer<W>,
}
