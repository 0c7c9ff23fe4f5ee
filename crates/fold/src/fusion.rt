// One fusion, and where it was made.
#[derive(Clone, Copy, PartialEq, Eq, Debug)]
pub enum Fusion {
    // the place that the transition gives was fused into the one that it takes
    Places { transition: u8 },
    // the transition that takes the place was fused into the one that gives it
    Transitions { place: u8 },
}
