pub mod lines;

ghost use Rattle.std.specs.Prelude.{◌^◌, ◌<◌};

// A copied set of lines, which can only be read.
// Contracts see the field and not a bare number: a set of lines is below 2 ^ 64, and a law of `Lines` says so of every value.
#[derive(Clone, Copy)]
pub struct Snapshot {
    set: u64,
    ghost fits: { set < 2 ^ 64 },
}
