// A run is going or halted. Its state is a type, so that a call on a run that does not have it is not built.
use cover::Certified;

// The state of a run that fires.
#[derive(Clone, Copy)]
pub struct Fires;

// The state of a run that stands still.
#[derive(Clone, Copy)]
pub struct Stands;

// A certified net on a board, in a state.
pub struct Driven<B, S> {
    pub(crate) certified: Certified,
    pub(crate) board: B,
    pub(crate) state: S,
}

// A run that fires.
pub type Going<B> = Driven<B, Fires>;

// A run that stands still.
pub type Halted<B> = Driven<B, Stands>;

// A run in either state.
pub enum Run<B> {
    Going(Going<B>),
    Halted(Halted<B>),
}
