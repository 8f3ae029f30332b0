// The heads of blocks.
ghost use Rattle.std.specs.Prelude.{◌≡◌};
ghost use Rattle.blocks.specs.Heads.{block_id, head_bytes, read_head, said};

use crate::layout::put;
use crate::limits::{HEAD_BYTES, PAYLOAD_MOST};
use crate::rank::{Kind, Round, View};
use crate::statement::Statement;
use digest::Sha256;

#[derive(Clone, Copy, Debug, PartialEq, Eq)]
pub struct Head {
    pub kind: Kind,
    pub height: u8,
    pub proposer: u8,
    pub view: View,
    pub round: Round,
    // the parent's id
    pub parent: [u8; 32],
    // the bytes of the payload
    pub payload: u16,
}

impl Head {
    // The head that the bytes are, among n members.
    #[inline(always)]
    pub fn read(bytes: &[u8], n: u8) -> Option<Head>
        ensures { result ≡ read_head n bytes.now }
    {
        let (front, payload) = bytes.split_last_chunk::<2>()?;
        let Statement {
            kind,
            height,
            proposer,
            view,
            round,
            id: parent,
        } = Statement::read(front, n)?;
        let payload = u16::from_be_bytes(*payload);
        if proposer == 0 || payload as usize > PAYLOAD_MOST {
            return None;
        }
        Some(Head {
            kind,
            height,
            proposer,
            view,
            round,
            parent,
            payload,
        })
    }

    // The head's bytes: those of a statement with the parent's id, and the payload's length.
    pub fn bytes(&self) -> [u8; 45]
        ensures { result ≡ head_bytes self.now }
    {
        let mut out = [0; HEAD_BYTES];
        let at = put(&mut out, 0, &self.said(self.parent).bytes());
        put(&mut out, at, &self.payload.to_be_bytes());
        out
    }

    // What is said of the block that has this head and this id.
    pub fn said(&self, id: [u8; 32]) -> Statement
        ensures { result ≡ said self.now id }
    {
        Statement {
            kind: self.kind,
            height: self.height,
            proposer: self.proposer,
            view: self.view,
            round: self.round,
            id,
        }
    }
}

// The id of the block with this head and payload.
pub fn block_id(head: &Head, payload: &[u8]) -> [u8; 32]
    ensures { result ≡ block_id head.now payload.now }
{
    let mut hasher = Sha256::new();
    hasher.update(&head.bytes());
    hasher.update(payload);
    hasher.finish()
}
