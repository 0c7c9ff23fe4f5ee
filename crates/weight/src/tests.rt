// Both kinds of weight, on snapshots, boards and nets.
use crate::carriers::Carriers;
use crate::keys::Keys;
use crate::weighing::{balance, drift, weigh};
use crate::weight::Weight;
use board::{Board, Gate, Snapshot, Word};
use net::Net;

#[test]
fn kinds_add_and_invert(rt: HostRuntime) {
    assert_eq!(rt;
        Carriers::new(4294967295).add(Carriers::new(1)),
        Carriers::NEUTRAL
    );
    assert_eq!(rt; Carriers::new(1).inverse().count(), 4294967295);
    assert_eq!(rt; Keys::new(0x3).add(Keys::new(0x2)).set(), 0x1);
    assert_eq!(rt; Keys::new(0x3).add(Keys::new(0x3).inverse()), Keys::NEUTRAL);
}

// A list of 3 has no entry for line 63, and one of 66 has two entries that no line has.
#[test]
fn lines_weigh(rt: HostRuntime) {
    let mut board = Gate::new(0, Word::new());
    board.lay(0x8000_0000_0000_0005);
    let short = [Carriers::new(1), Carriers::new(10), Carriers::new(100)];
    assert_eq!(rt; weigh(&board, &short).count(), 101);
    assert_eq!(rt; weigh(&board, &[Keys::new(0x3); 70]).set(), 0x3);
    assert_eq!(rt;
        weigh(&Snapshot::new(u64::MAX), &[Carriers::new(1); 70]).count(),
        64
    );
}

// Transition 0 takes place 0 and gives place 1, and transition 1 takes place 1 and gives place 2.
#[test]
fn nets_balance(rt: HostRuntime) {
    let mut net = Net::new();
    assert!(rt; net.draw(3, 2, 1).is_ok());
    assert!(rt; net.arcs(0, 0x1, 0x2).is_ok());
    assert!(rt; net.arcs(1, 0x2, 0x4).is_ok());
    let list = [Carriers::new(5), Carriers::new(5), Carriers::new(3)];
    assert_eq!(rt; drift(&net, 0, &list).count(), 0);
    assert_eq!(rt; drift(&net, 1, &list).count(), 4294967294);
    assert_eq!(rt; drift(&net, 2, &list).count(), 0);
    assert_eq!(rt; balance(&net, &list), Some(1));
    assert_eq!(rt; balance(&net, &[Keys::new(0x7); 3]), None);
}
