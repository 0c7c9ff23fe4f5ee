// What a fusion notes: the place that it takes out of the net, and the set of places that says where to put it back.
#[derive(Clone, Copy, PartialEq, Eq, Debug, Default)]
pub struct Step {
    pub place: u8,
    pub set: u64,
}
