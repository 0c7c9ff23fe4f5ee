pub mod weight;

ghost use Rattle.std.specs.Prelude.{◌^◌, ◌<◌};

// A number of carriers, modulo 4294967296.
// Contracts see the field and not a bare number: the laws of a kind of weight hold of the numbers below 2 ^ 32 alone.
#[derive(Clone, Copy, PartialEq, Eq, Debug)]
pub struct Carriers {
    count: u32,
    ghost fits: { count < 2 ^ 32 },
}
