ghost use Rattle.std.specs.Prelude.{[], ◌∷◌};

use super::build::{Entered, write_certificate, write_entries};
use super::items::{KeptShare, KeptTimeout, KeptVote, kept};
use super::shares::kept_shares;
use blocks::layout::put;
use blocks::rank::{Kind, Round, View};
use blocks::statement::Statement;
use coin::Share;
use std::test::Fail;
use tally::ByNumber;

fn vote(round: u32, tag: [u8; 2]) -> Option<KeptVote> {
    let statement = Statement {
        kind: Kind::Regular,
        height: 0,
        proposer: 2,
        view: View(1),
        round: Round(round),
        id: [7; 32],
    };
    Some(KeptVote {
        statement,
        tag: kept(&tag),
    })
}

fn timeout(view: u32, tag: [u8; 2]) -> Option<KeptTimeout> {
    Some(KeptTimeout {
        view: View(view),
        tag: kept(&tag),
    })
}

fn share(view: u32, value: u16) -> Option<KeptShare> {
    Some(KeptShare {
        view: View(view),
        value,
        tag: kept(&[9]),
    })
}

// Members 1 and 3 vote for the block of round 5, and member 2 for that of round 6.
#[test]
fn certificate(rt: HostRuntime) -> Result<(), Fail> {
    let places = [vote(5, [1, 2]), vote(6, [3, 4]), vote(5, [5, 6])];
    let item = places[2].ok_or("empty")?;
    let mut out = [0xee; 51];
    assert_eq!(rt; write_certificate(&places, &item, 2, &mut out), Some(50));
    assert!(rt; &out[0..11] == [0, 0, 2, 0, 0, 0, 1, 0, 0, 0, 5].as_slice());
    assert!(rt; &out[43..51] == [2, 1, 1, 2, 3, 5, 6, 0xee].as_slice());
    assert_eq!(rt; write_certificate(&places, &item, 2, &mut out[0..49]), None);
    Ok(())
}

// Of four members the second has not timed out, and the fourth has in an earlier view.
#[test]
fn timeouts(rt: HostRuntime) -> Result<(), Fail> {
    let places = [
        timeout(3, [1, 2]),
        None,
        timeout(3, [3, 4]),
        timeout(2, [5, 6]),
    ];
    let item = places[0].ok_or("empty")?;
    let mut out = [0; 8];
    assert_eq!(rt; write_entries(&places, &item, 2, &mut out, 1), Some(7));
    assert_eq!(rt; write_entries(&places, &item, 2, &mut out, 3), None);
    assert!(rt; out == [0, 1, 1, 2, 3, 3, 4, 0]);
    Ok(())
}

#[test]
fn shares(rt: HostRuntime) -> Result<(), Fail> {
    let places = [share(3, 258), share(4, 5), share(3, 6), None];
    let item = places[0].ok_or("empty")?;
    let mut out = [0; 8];
    assert_eq!(rt; write_entries(&places, &item, 1, &mut out, 0), Some(8));
    assert!(rt; out == [1, 1, 2, 9, 3, 0, 6, 9]);
    let nobody = Share {
        member: 0,
        value: 0,
    };
    let mut elect = [nobody; 2];
    assert_eq!(rt; kept_shares(&places, &item, &mut elect), Some(2));
    assert_eq!(rt; (elect[0].member, elect[0].value), (1, 258));
    assert_eq!(rt; (elect[1].member, elect[1].value), (3, 6));
    assert_eq!(rt; kept_shares(&places, &item, &mut elect[0..1]), None);
    Ok(())
}

// An item with a tail of its own: one byte, whatever the width of tags.
#[derive(Clone, Copy)]
struct Marked {
    mark: u8,
}

impl ByNumber for Marked {
    ghost number = { λ x. x.mark };

    fn number(&self) -> u32 {
        u32::from(self.mark)
    }
}

impl Entered for Marked {
    ghost tail = { λ _ x. x.mark ∷ [] };

    fn tail_length(&self, _: usize) -> usize {
        1
    }

    fn put_tail(&self, _: usize, out: &mut [u8], at: usize) -> usize {
        put(out, at, &[self.mark])
    }
}

// Members 1 and 3 have the mark 7, and member 2 has none.
#[test]
fn own_tails(rt: HostRuntime) {
    let mark = Marked { mark: 7 };
    let places = [Some(mark), None, Some(mark)];
    let mut out = [0; 5];
    assert_eq!(rt; write_entries(&places, &mark, 208, &mut out, 0), Some(4));
    assert!(rt; out == [1, 7, 3, 7, 0]);
}
