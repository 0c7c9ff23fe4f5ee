// A ring of two places, and the nets that look covered and are not.
use crate::{Certified, Sheet, check};
use net::Net;
use refusal::Refusal;
use std::test::Fail;

// Transition 0 from place 0 to place 1, transition 1 back.
fn ring(marks: u64) -> Result<Net, Refusal> {
    let mut net = Net::new();
    net.draw(2, 2, marks)?;
    net.arcs(0, 1, 2)?;
    net.arcs(1, 2, 1)?;
    Ok(net)
}

#[test]
fn a_ring_is_certified(rt: HostRuntime) -> Result<(), Fail> {
    let mut sheet = Sheet::new(ring(1)?);
    assert_eq!(rt; sheet.propose(0), Err(Refusal::EmptySet));
    assert_eq!(rt; sheet.propose(4), Err(Refusal::PlaceOutside));
    assert_eq!(rt;
        sheet.propose(1),
        Err(Refusal::NotEvenOrNotThin { transition: 0 })
    );
    assert_eq!(rt; sheet.bare(), 3);
    assert_eq!(rt; sheet.propose(3), Ok(()));
    assert_eq!(rt; sheet.propose(3), Err(Refusal::NoBarePlace));
    let mut certified = Certified::new();
    assert_eq!(rt; certified.certify(sheet), Ok(()));
    assert_eq!(rt; certified.strand(0), Some(3));
    assert_eq!(rt; certified.strand(1), None);
    Ok(())
}

#[test]
fn a_bare_place_is_told(rt: HostRuntime) -> Result<(), Fail> {
    let mut certified = Certified::new();
    assert_eq!(rt;
        certified.certify(Sheet::new(ring(1)?)),
        Err(Refusal::Bare { place: 0 })
    );
    assert_eq!(rt; certified.net().places(), 0);
    assert_eq!(rt; check(&ring(3)?, 3), Err(Refusal::TwoMarks));
    Ok(())
}

// 0 to 1 and 2, 1 to 3, 2 to 3: place 3 can hold two tokens.
#[test]
fn a_fork_that_joins_in_one_place_has_no_strand(rt: HostRuntime) -> Result<(), Fail> {
    let mut net = Net::new();
    net.draw(4, 3, 1)?;
    net.arcs(0, 1, 6)?;
    net.arcs(1, 2, 8)?;
    net.arcs(2, 4, 8)?;
    assert_eq!(rt;
        check(&net, 15),
        Err(Refusal::NotEvenOrNotThin { transition: 0 })
    );
    Ok(())
}

// 0 and 1 to 2 and 3: the sums are even, and two tokens move at once.
#[test]
fn two_taken_and_two_given_is_no_strand(rt: HostRuntime) -> Result<(), Fail> {
    let mut net = Net::new();
    net.draw(4, 1, 1)?;
    net.arcs(0, 3, 12)?;
    assert_eq!(rt;
        check(&net, 15),
        Err(Refusal::NotEvenOrNotThin { transition: 0 })
    );
    assert_eq!(rt; check(&net, 5), Ok(()));
    Ok(())
}
