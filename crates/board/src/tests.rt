// Every board, driven by the same generic code.
use crate::board::Board;
use crate::gate::{Gate, Guard};
use crate::relays::Relays;
use crate::relays::relay::Relay;
use crate::shut::Shut;
use crate::snapshot::Snapshot;
use crate::turned::Turned;
use crate::word::Word;

// What is lit after {0, 1, 63} is laid, after {1} is exchanged for {2}, and after {0, 2} is exchanged for {2, 3}.
fn shown<B: Board>(board: &mut B) -> [u64; 3] {
    board.lay(0x8000_0000_0000_0003);
    let laid = Snapshot::of(board).set();
    let _ = board.exchange(0x2, 0x4);
    let once = Snapshot::of(board).set();
    let _ = board.exchange(0x5, 0xC);
    [laid, once, Snapshot::of(board).set()]
}

// Where no channel is shut; a line in both sets ends lit.
const SWITCHED: [u64; 3] = [
    0x8000_0000_0000_0003,
    0x8000_0000_0000_0005,
    0x8000_0000_0000_000C,
];

// Where one is.
const LAID: [u64; 3] = [0x8000_0000_0000_0003; 3];

#[test]
fn boards_switch(rt: HostRuntime) {
    let mut word = Word::new();
    word.signal(0, 1);
    assert_eq!(rt; shown(&mut word), SWITCHED);
    assert_eq!(rt; shown(&mut Relays::new()), SWITCHED);
    assert_eq!(rt; shown(&mut Gate::new(7, word)), SWITCHED);
    assert_eq!(rt;
        shown(&mut Turned::new(0x8000_0000_0000_0006, word)),
        SWITCHED
    );
}

// Each relay counts its changes: one that goes out and on in one exchange has not changed.
#[test]
fn relays_wear(rt: HostRuntime) {
    let mut relays = Relays::new();
    assert_eq!(rt; shown(&mut relays), SWITCHED);
    relays.lay(0x8000_0000_0000_000C);
    assert_eq!(rt;
        [
            relays.wear(0),
            relays.wear(1),
            relays.wear(2),
            relays.wear(3),
        ],
        [2, 2, 1, 1]
    );
    assert_eq!(rt;
        [
            relays.wear(4),
            relays.wear(63),
            relays.wear(64),
            relays.wear(255),
        ],
        [0, 1, 0, 0]
    );
    let spent = Relay {
        on: true,
        wear: 4294967295,
    };
    assert_eq!(rt; spent.switch(false).wear, 4294967295);
}

// A gate on channel 1, over lines 1 and 2 turned, over a gate on channel 2, over relays.
#[test]
fn stack_of_three(rt: HostRuntime) {
    let mut stack = Gate::new(1, Turned::new(0x6, Gate::new(2, Relays::new())));
    assert_eq!(rt; shown(&mut stack), SWITCHED);
    assert_eq!(rt;
        Snapshot::of(stack.below().below()).set(),
        0x8000_0000_0000_000A
    );
    stack.signal(2, 1);
    assert_eq!(rt; stack.shut(), Some(2));
    assert_eq!(rt; shown(&mut stack), LAID);
    stack.signal(1, 1);
    assert_eq!(rt; stack.exchange(1, 2), Err(Shut { channel: 1 }));
    stack.signal(2, 2);
    stack.signal(2, 3);
    assert_eq!(rt; stack.below().below().guard(), Guard::Ready);
    stack.signal(1, 2);
    assert_eq!(rt; shown(&mut stack), LAID);
    stack.signal(1, 3);
    assert_eq!(rt; shown(&mut stack), SWITCHED);
}
