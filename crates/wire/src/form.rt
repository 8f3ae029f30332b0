// What a message is read against.
ghost use Rattle.std.specs.Prelude.{◌≡◌, ◌+◌};
ghost use Rattle.coin.specs.Shares.{size};
ghost use Rattle.wire.specs.Forms.{form_of};
ghost use Rattle.wire.specs.Quorums.{quorum};

use crate::entries::Wanted;
use attest::attestor::Attestor;
use coin::share_count;

// The group's size, the bytes of a tag and the coin's greatest value.
#[derive(Clone, Copy)]
pub struct Form {
    pub members: u8,
    pub width: u16,
    pub greatest: u16,
}

impl Form {
    // What the messages of a group of n members are read and written against, by the attestor's two constants.
    pub fn of<A: Attestor>(n: u8, greatest: u16) -> Form
        ensures { result ≡ form_of A.Attestor n greatest }
    {
        Form {
            members: n,
            width: A::width(n) as u16,
            greatest,
        }
    }

    // Entries of signer and tag: so many.
    pub(crate) fn tags(self, count: u8) -> Wanted
        ensures { result ≡ record { members = self.members; limit = None; wide = self.width; count = count } }
    {
        Wanted {
            members: self.members,
            limit: None,
            wide: self.width as u32,
            count,
        }
    }

    // Entries of member, value and tag: as many as elect a member.
    pub(crate) fn shares(self) -> Wanted
        ensures { result ≡ record { members = self.members; limit = Some self.greatest; wide = 2 + self.width; count = size self.members } }
    {
        Wanted {
            members: self.members,
            limit: Some(self.greatest),
            wide: 2 + self.width as u32,
            count: share_count(self.members),
        }
    }
}

// How many of n members make a quorum.
pub fn quorum(n: u8) -> u8
    ensures { result ≡ quorum n }
{
    n.saturating_sub(1) / 3 * 2 + 1
}
