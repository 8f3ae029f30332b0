// Expected bytes were written down by hand from the layout, and the id by Python's hashlib.
use crate::head::{Head, block_id};
use crate::layout::put;
use crate::rank::{Kind, Round, View};
use crate::statement::Statement;
use std::test::Fail;

// A fallback head: height 3, proposer 2, view 258, round 50,595,078, a payload of 192 bytes.
fn fallback() -> Head {
    Head {
        kind: Kind::Fallback,
        height: 3,
        proposer: 2,
        view: View(258),
        round: Round(50_595_078),
        parent: *b"0123456789abcdefghijklmnopqrstuv",
        payload: 192,
    }
}

#[test]
fn written(rt: HostRuntime) -> Result<(), Fail> {
    let head = fallback();
    let bytes =
        *b"\x01\x03\x02\x00\x00\x01\x02\x03\x04\x05\x060123456789abcdefghijklmnopqrstuv\x00\xc0";
    assert_eq!(rt; head.bytes(), bytes);
    assert_eq!(rt; &head.said(head.parent).bytes()[..], &bytes[..43]);
    assert_eq!(rt; Head::read(&bytes, 4), Some(head));
    let said = Statement::read(&bytes[..43], 4).ok_or("a statement")?;
    assert_eq!(rt; said, head.said(head.parent));
    assert_eq!(rt; said.rank().round, Round(50_595_078));
    assert_eq!(rt;
        block_id(&head, b"payload"),
        *b"\x4b\xd0\x45\xa8\xe4\xc4\x70\x54\xee\x06\x24\xcb\x40\x16\xc4\xb1\x13\x9a\xfa\x31\x95\x96\x56\x96\x27\x94\x5a\xfa\xbe\xa9\x06\x7c"
    );
    Ok(())
}

// Whether the bytes of the head, with one of them replaced, are refused, and those of the statement with the parent's id.
fn both_refuse(block: &Head, at: usize, byte: u8) -> bool {
    let mut head = block.bytes();
    let mut said = block.said(block.parent).bytes();
    put(&mut head, at, &[byte]);
    put(&mut said, at, &[byte]);
    Head::read(&head, 4).is_none() && Statement::read(&said, 4).is_none()
}

#[test]
fn refused(rt: HostRuntime) {
    let fallback = fallback();
    let mut regular = fallback;
    regular.kind = Kind::Regular;
    regular.height = 0;
    assert!(rt; Head::read(&regular.bytes(), 4).is_some());
    // a height of no block, one of the other kind, a kind that is none, proposers that are no member
    let damages = [
        (fallback, 1, 4),
        (fallback, 1, 0),
        (regular, 1, 1),
        (fallback, 0, 2),
        (regular, 2, 0),
        (fallback, 2, 5),
    ];
    for (head, at, byte) in damages {
        assert!(rt; both_refuse(&head, at, byte));
    }
}

#[test]
fn lengths(rt: HostRuntime) {
    // 192 bytes of payload are taken, 193 are not; nor is a byte too few or too many
    let head = fallback().bytes();
    let mut long = head;
    put(&mut long, 44, &[193]);
    let mut spare = [0; 46];
    put(&mut spare, 0, &head);
    assert!(rt; Head::read(&head, 4).is_some() && Head::read(&long, 4).is_none());
    assert!(rt; Head::read(&head[..44], 4).is_none() && Head::read(&spare, 4).is_none());
    assert!(rt; Statement::read(&[1; 43], 4).is_some());
    assert!(rt; Statement::read(&[1; 42], 4).is_none() && Statement::read(&[1; 44], 4).is_none());
    // genesis is 43 zero bytes, and no head
    let mut genesis = Statement::genesis().bytes();
    assert!(rt; Statement::read(&genesis, 4).is_some() && Head::read(&[0; 45], 4).is_none());
    put(&mut genesis, 42, &[1]);
    assert!(rt; Statement::read(&genesis, 4).is_none());
}
