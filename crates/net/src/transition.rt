// A transition: the set of places that it takes, and the set that it gives.
#[derive(Clone, Copy)]
pub(crate) struct Transition {
    pub(crate) taken: u64,
    pub(crate) given: u64,
}

// Without arcs, a transition takes and gives nothing.
pub(crate) const BARE: Transition = Transition { taken: 0, given: 0 };
