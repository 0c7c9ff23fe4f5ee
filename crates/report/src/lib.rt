// Reports for persons, as text.
#![tactic(auto)]

mod checks;
mod texts;

pub use checks::check;
pub use texts::{kind_name, members, saying};
