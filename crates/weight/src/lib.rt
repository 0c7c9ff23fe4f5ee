// Kinds of weight, and what the lit lines of a board weigh.
#![tactic(auto)]

mod carriers;
mod keys;
#[cfg(test)]
mod tests;
mod weighing;
mod weight;

pub use carriers::Carriers;
pub use keys::Keys;
pub use weighing::{balance, drift, weigh};
pub use weight::Weight;
