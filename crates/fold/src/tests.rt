// A ring of three places, folded and unfolded.
use crate::{Folded, Fusion, Step};
use net::Net;
use refusal::Refusal;
use std::test::Fail;

// 0 to 1, 1 to 2, 2 to 0, with a mark on 0: place 1 is fused into place 0, and no more applies.
#[test]
fn a_ring_of_three_makes_one_step(rt: HostRuntime) -> Result<(), Fail> {
    let mut net = Net::new();
    net.draw(3, 3, 1)?;
    net.arcs(0, 1, 2)?;
    net.arcs(1, 2, 4)?;
    net.arcs(2, 4, 1)?;
    let mut folded = Folded::new(&net);
    assert_eq!(rt; folded.fuse(), Some(Fusion::Places { transition: 0 }));
    assert_eq!(rt; folded.fuse(), None);
    assert_eq!(rt; folded.count(), 1);
    assert_eq!(rt; folded.step(0), Some(Step { place: 1, set: 1 }));
    assert_eq!(rt; folded.unfold(5), Ok(7));
    assert_eq!(rt; folded.unfold(2), Ok(0));
    assert_eq!(rt; folded.unfold(8), Err(Refusal::PlaceOutside));
    Ok(())
}

// 0 and 1 to 2, 2 to 3 and 4: transition 1 is fused into transition 0 at place 2.
#[test]
fn a_join_before_a_fork_makes_one_step(rt: HostRuntime) -> Result<(), Fail> {
    let mut net = Net::new();
    net.draw(5, 2, 3)?;
    net.arcs(0, 3, 4)?;
    net.arcs(1, 4, 24)?;
    let mut folded = Folded::new(&net);
    assert_eq!(rt; folded.fuse(), Some(Fusion::Transitions { place: 2 }));
    assert_eq!(rt; folded.step(0), Some(Step { place: 2, set: 24 }));
    assert_eq!(rt; folded.net().gives(0), 24);
    assert_eq!(rt; folded.original().gives(0), 4);
    assert_eq!(rt; folded.unfold(9), Ok(13));
    Ok(())
}
