pub mod board;

ghost use Rattle.std.specs.Prelude.{◌^◌, ◌<◌};

// A board that shows the lines of a set turned over: lit where they are dark on the board below, and dark where they are lit.
#[derive(Drop)]
pub struct Turned<B> {
    set: u64,
    below: B,
    ghost fits: { set < 2 ^ 64 },
}
