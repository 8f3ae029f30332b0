use attest::book::Book;
use attest::entry::Entry;
use attest::group::GroupSize;
use member::memory::MemoryMut;
use member::state::Member;
use std::test::Fail;
use table::held::GENESIS;
use wire::form::Form;
use wire::limits::{CERTIFICATE_MOST, OUTGOING_BYTES};
use wire::reader::read;

// What a fresh member 2 of 4 writes, as the rules have it.
const FRESH: &[u8] =
    b"member=2\nmembers=4\nview=0\nstage=steady\nround=1\nvoted=0\nlock=0,0,0\nhigh=0,0,0\nblocks=1\ncommitted=0\n";

// A fresh member of four writes its sheet; member 2 writes just these lines.
#[test]
fn fresh_sheet(rt: HostRuntime) -> Result<(), Fail> {
    let mut memory = MemoryMut {
        votes: &mut [None; 4],
        timeouts: &mut [None; 4],
        finished: &mut [None; 4],
        shares: &mut [None; 4],
        table: &mut [GENESIS; 2],
        shelf: &mut [[0; CERTIFICATE_MOST]; 5],
    };
    let member = Member::set_up(2, 4, &mut memory, &[0; OUTGOING_BYTES])?;
    let mut sheet = [0; 256];
    let length = member.sheet(memory.table, &mut sheet)?;
    assert_eq!(rt; length, 98);
    assert!(rt; length <= 256);
    assert!(rt; &sheet[..length] == FRESH);
    Ok(())
}

// What member 1 of 4, the leader of round 1, answers to a payload of so many bytes: 0, or the refusal's number.
fn proposes(payload: &[u8]) -> Result<u8, Fail> {
    let mut memory = MemoryMut {
        votes: &mut [None; 4],
        timeouts: &mut [None; 4],
        finished: &mut [None; 4],
        shares: &mut [None; 4],
        table: &mut [GENESIS; 2],
        shelf: &mut [[0; CERTIFICATE_MOST]; 5],
    };
    let mut out = [0; OUTGOING_BYTES];
    let mut member = Member::set_up(1, 4, &mut memory, &out)?;
    let mut entries = [Entry::blank(); 1];
    let book = Book::over(&mut entries, GroupSize::try_from(4)?);
    let answer = member.propose(&book, memory.shared(), payload, &mut out);
    Ok(answer.map_or_else(u8::from, |_| 0))
}

// A payload of 192 bytes is taken, one of 193 gives 2.
#[test]
fn longest_payload(rt: HostRuntime) -> Result<(), Fail> {
    assert_eq!(rt; proposes(&[7; 192])?, 0);
    assert_eq!(rt; proposes(&[7; 193])?, 2);
    Ok(())
}

// Messages for 4 members with tags of the book, shares up to 65,535.
const FORM: Form = Form {
    members: 4,
    width: 4,
    greatest: 65_535,
};

// No bytes are no message.
#[test]
fn no_bytes(rt: HostRuntime) {
    assert!(rt; read(FORM, &[]).is_err());
}

// A vote by member 3 for a regular block of member 1, view 0, round 1, with an id of 32 times ab and the tag 5, laid out by hand.
const VOTE: [u8; 49] = [
    2, 0, 0, 1, 0, 0, 0, 0, 0, 0, 0, 1, 0xab, 0xab, 0xab, 0xab, 0xab, 0xab, 0xab, 0xab, 0xab, 0xab,
    0xab, 0xab, 0xab, 0xab, 0xab, 0xab, 0xab, 0xab, 0xab, 0xab, 0xab, 0xab, 0xab, 0xab, 0xab, 0xab,
    0xab, 0xab, 0xab, 0xab, 0xab, 0xab, 3, 0, 0, 0, 5,
];

// A place, and a byte that damages the vote there: no such message, kind of block, height or proposer, and no such signer.
const DAMAGES: [(usize, u8); 9] = [
    (0, 0),
    (0, 8),
    (1, 2),
    (2, 1),
    (3, 0),
    (3, 5),
    (44, 0),
    (44, 5),
    (1, 1),
];

#[test]
fn damaged_votes(rt: HostRuntime) {
    assert!(rt; read(FORM, &VOTE).is_ok());
    assert!(rt; read(FORM, &VOTE[0..48]).is_err());
    for (at, byte) in DAMAGES {
        let mut message = VOTE;
        assert!(rt; at < 49);
        message[at] = byte;
        assert!(rt; read(FORM, &message).is_err());
    }
}
