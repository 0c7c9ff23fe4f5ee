pub mod board;
pub(crate) mod relay;

ghost use Rattle.std.specs.Prelude.{◌≡◌, length};

use relay::Relay;

// A board of 64 relays, each with its state and its wear.
// Contracts see the field and not a bare list: a law of `Lines` needs that there are 64.
#[derive(Clone, Copy)]
pub struct Relays {
    // All 64 are there, so no length stands beside the array.
    relays: [Relay; 64],
    ghost long: { length relays ≡ 64 },
}
