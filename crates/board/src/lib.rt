// Boards of 64 lines: what they mean, and the boards that there are.
#![tactic(auto)]

mod board;
mod gate;
mod lines;
mod relays;
mod sets;
mod shut;
mod snapshot;
#[cfg(test)]
mod tests;
mod turned;
mod word;

pub use board::Board;
pub use gate::{Gate, Guard};
pub use lines::Lines;
pub use relays::Relays;
pub use shut::Shut;
pub use snapshot::Snapshot;
pub use turned::Turned;
pub use word::Word;
