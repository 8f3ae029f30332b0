// Blocks that carry one lot.
ghost use Rattle.std.specs.Prelude.{◌≡◌, ◌++◌};
ghost use Rattle.blocks.specs.Heads.{block_id, head_bytes, said};
ghost use Rattle.walkthrough.specs.Lots.{lot_bytes};
ghost use Rattle.walkthrough.specs.LotBlocks.{first_block};

use crate::lot::{LOT_BYTES, Lot};
use blocks::head::{Head, block_id};
use blocks::layout::put;
use blocks::limits::ID_BYTES;
use blocks::rank::{Kind, Round, View, leader};
use blocks::statement::Statement;

// The bytes of head and payload.
pub const LOT_BLOCK_BYTES: usize = 52;

#[derive(Clone, Copy)]
pub struct LotBlock {
    pub head: Head,
    pub lot: Lot,
}

impl LotBlock {
    // The regular block that the leader of round 1 among n members puts on genesis in view 0; none where there is no member.
    pub fn first(n: u8, lot: Lot) -> Option<LotBlock>
        ensures { result ≡ first_block n lot }
    {
        let round = Round(1);
        let proposer = leader(n, round)?;
        let parent = [0; ID_BYTES];
        let head = Head {
            kind: Kind::Regular,
            height: 0,
            proposer,
            view: View(0),
            round,
            parent,
            payload: LOT_BYTES as u16,
        };
        Some(LotBlock { head, lot })
    }

    // Head and payload.
    pub fn bytes(&self) -> [u8; LOT_BLOCK_BYTES]
        ensures { result ≡ head_bytes self.now.head ++ lot_bytes self.now.lot }
    {
        let mut bytes = [0; LOT_BLOCK_BYTES];
        let at = put(&mut bytes, 0, &self.head.bytes());
        put(&mut bytes, at, &self.lot.payload());
        bytes
    }

    pub fn id(&self) -> [u8; 32]
        ensures { result ≡ block_id self.now.head (lot_bytes self.now.lot) }
    {
        block_id(&self.head, &self.lot.payload())
    }

    // What a vote says of the block.
    pub fn statement(&self) -> Statement
        ensures { result ≡ said self.now.head (block_id self.now.head (lot_bytes self.now.lot)) }
    {
        self.head.said(self.id())
    }
}
