// The rehearsal of a buyer's package: a drawing, its cover, and a list of calls on a board.
#![tactic(auto)]

mod covers;
mod drives;
mod folds;
mod rehearsed;
mod rehearses;
mod steps;

pub use rehearsed::{Refused, Rehearsed};
pub use rehearses::rehearse;
