// Runs of a certified net on a board.
#![tactic(auto)]

mod calls;
mod driven;
mod going;
mod halted;
mod places;
mod runs;

pub use calls::{Answer, Call, Entry};
pub use runs::{Driven, Fires, Going, Halted, Run, Stands};
