// Strands, sheets and certified nets: what shows that no place of a net ever holds two tokens.
#![tactic(auto)]

mod certified;
mod certifying;
mod checking;
mod proposing;
mod reading_certified;
mod reading_sheets;
mod sheet;

pub use certified::Certified;
pub use checking::check;
pub use sheet::Sheet;

#[cfg(test)]
mod tests;
