use super::ancestry::{ancestor, extends};
use super::committed::{commit, committed_count, entry};
use super::held::Held;
use super::places::{find, hold, parent_of};
use blocks::rank::{Round, View};

// A block whose id is a number, as a member would hold it.
fn block(id: u8, view: u32, round: u32, parent: usize) -> Held {
    let mut block = Held::genesis();
    block.id = [id; 32];
    block.head.view = View(view);
    block.head.round = Round(round);
    block.head.payload = 3;
    block.parent = parent;
    block
}

// Genesis, a chain of three blocks of view 0 in places 1 to 3, and beside it one of view 1 in places 4 to 6; place 7 is free.
fn forked() -> [Held; 8] {
    [
        Held::genesis(),
        block(1, 0, 1, 0),
        block(2, 0, 2, 1),
        block(3, 0, 3, 2),
        block(4, 1, 1, 0),
        block(5, 1, 2, 4),
        block(6, 1, 3, 5),
        Held::genesis(),
    ]
}

#[test]
fn places(rt: HostRuntime) {
    let mut table = forked();
    for (held, id, place) in [(7, 3, Some(3)), (3, 3, None), (99, 9, None)] {
        assert_eq!(rt; find(&table, held, &[id; 32]), place);
    }
    for (i, parent) in [(0, 0), (3, 2), (4, 0), (99, 0)] {
        assert_eq!(rt; parent_of(&table, i), parent);
    }
    assert!(rt; !hold(&mut table, 8, block(8, 1, 5, 7)));
    assert!(rt; hold(&mut table, 7, block(7, 1, 4, 6)));
    assert_eq!(rt; find(&table, 8, &[7; 32]), Some(7));
    assert_eq!(rt; table[7].payload_bytes().len(), 3);
}

#[test]
fn walks(rt: HostRuntime) {
    let table = forked();
    for (a, b, answer) in [
        (3, 3, true),
        (3, 1, true),
        (6, 0, true),
        (1, 3, false),
        (6, 1, false),
    ] {
        assert_eq!(rt; extends(&table, a, b), answer);
    }
    for (a, round, place) in [(3, 2, Some(2)), (6, 1, Some(4)), (6, 4, None)] {
        assert_eq!(rt; ancestor(&table, a, Round(round)), place);
    }
}

#[test]
fn commits(rt: HostRuntime) {
    let table = forked();
    for (last, i, next) in [
        (0, 3, Some(1)),
        (2, 3, Some(2)),
        (1, 5, Some(1)),
        (1, 6, None),
    ] {
        assert_eq!(rt; commit(&table, last, i), next);
    }
    assert_eq!(rt; committed_count(&table, 3), 3);
    for (k, place) in [(0, None), (1, Some(1)), (3, Some(3)), (4, None)] {
        assert_eq!(rt; entry(&table, 3, k), place);
    }
}
