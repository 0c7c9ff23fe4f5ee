// The two sides of a transition: the places that it takes, and the places that it gives.
// A case and not a closure that reads the set: a contract says which set a case is, and of a closure only what its calls may answer.
#[derive(Clone, Copy)]
pub(crate) enum Side {
    Taken,
    Given,
}
