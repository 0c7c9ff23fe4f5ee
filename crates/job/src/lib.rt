// A job: lines that draw, certify and run a net, each answered by a line.
#![tactic(auto)]

mod covering;
mod drawing;
mod state;
