// Folding a net: fusions make it smaller, step by step, and sets found in the folded net are unfolded into sets of the net that it was copied from.
#![tactic(auto)]

mod finding;
mod folded;
mod fusing;
mod fusion;
mod note;
mod reading;
mod replacing;
mod side;
mod step;
mod unfolding;

pub use folded::Folded;
pub use fusion::Fusion;
pub use step::Step;

#[cfg(test)]
mod tests;
