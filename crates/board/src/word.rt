pub mod board;

ghost use Rattle.std.specs.Prelude.{◌^◌, ◌<◌};

// A board that is one 64-bit number, its lit set.
// It holds the number itself and not a snapshot of it: each of its contracts would name the set through one field more.
#[derive(Clone, Copy)]
pub struct Word {
    set: u64,
    ghost fits: { set < 2 ^ 64 },
}
