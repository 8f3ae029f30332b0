// A held block.
ghost use Rattle.std.specs.Prelude.{◌≡◌};
ghost use Rattle.std.specs.Str.{bytes_eq};
ghost use Rattle.blocks.specs.Statements.{rank_of};
ghost use Rattle.table.specs.Places.{genesis, payload_of, statement_of};

use blocks::head::Head;
use blocks::limits::{ID_BYTES, PAYLOAD_MOST};
use blocks::rank::{Kind, Rank, Round, View};
use blocks::statement::Statement;

#[derive(Clone, Copy, Debug, PartialEq, Eq)]
pub struct Held {
    pub head: Head,
    pub id: [u8; 32],
    // the parent's place
    pub parent: usize,
    // the payload, and past its length any bytes
    pub payload: [u8; 192],
}

// Genesis, as it is held.
pub const GENESIS: Held = Held {
    head: Head {
        kind: Kind::Regular,
        height: 0,
        proposer: 0,
        view: View(0),
        round: Round(0),
        parent: [0; ID_BYTES],
        payload: 0,
    },
    id: [0; ID_BYTES],
    parent: 0,
    payload: [0; PAYLOAD_MOST],
};

impl Held {
    pub fn genesis() -> Held
        ensures { result ≡ genesis }
    {
        GENESIS
    }

    // What a vote for the block says.
    pub fn statement(&self) -> Statement
        ensures { result ≡ statement_of self.now }
    {
        self.head.said(self.id)
    }

    // Whether the block has this id.
    pub fn has_id(&self, id: &[u8; 32]) -> bool
        ensures { result ≡ bytes_eq self.now.id id.now }
    {
        self.id == *id
    }

    pub fn rank(&self) -> Rank
        ensures { result ≡ rank_of (statement_of self.now) }
    {
        self.statement().rank()
    }

    // The payload: as many of its bytes as the head says, and no more than there are.
    pub fn payload_bytes(&self) -> &[u8]
        ensures { result.now ≡ payload_of self.now }
    {
        let length = PAYLOAD_MOST.min(self.head.payload as usize);
        &self.payload[..length]
    }
}
