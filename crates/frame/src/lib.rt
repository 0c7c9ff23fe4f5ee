#![tactic(auto)]

mod answers;
mod cuts;
mod digits;
mod frames;
mod kinds;
mod reads;
mod requests;
mod tags;
mod writes;

pub use answers::answer;
pub use cuts::{Lines, first_line};
pub use frames::{Frame, Payload};
pub use kinds::Kind;
pub use reads::read;
pub use requests::Request;
pub use tags::payload_length;
pub use writes::write;
