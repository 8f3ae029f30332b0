// Statements: what a vote says of a block, and what a certificate proves of it.
ghost use Rattle.std.specs.Prelude.{◌≡◌};
ghost use Rattle.blocks.specs.Sameness.{same_statement};
ghost use Rattle.blocks.specs.Statements.{rank_of, genesis, statement_bytes, read_statement};

use crate::layout::put;
use crate::limits::{ID_BYTES, STATEMENT_BYTES};
use crate::rank::{Kind, Rank, Round, View};

#[derive(Clone, Copy, Debug, PartialEq, Eq)]
pub struct Statement {
    pub kind: Kind,
    pub height: u8,
    pub proposer: u8,
    pub view: View,
    pub round: Round,
    pub id: [u8; 32],
}

impl Statement {
    pub fn rank(&self) -> Rank
        ensures { result ≡ rank_of self.now }
    {
        Rank {
            view: self.view,
            kind: self.kind,
            round: self.round,
        }
    }

    // The statement of genesis.
    pub fn genesis() -> Statement
        ensures { result ≡ genesis }
    {
        Statement {
            kind: Kind::Regular,
            height: 0,
            proposer: 0,
            view: View(0),
            round: Round(0),
            id: [0; ID_BYTES],
        }
    }

    // The statement that the bytes are, among n members.
    #[inline(always)]
    pub fn read(bytes: &[u8], n: u8) -> Option<Statement>
        ensures { result ≡ read_statement n bytes.now }
    {
        let [kind, height, proposer, rest @ ..] = bytes else {
            return None;
        };
        if *proposer == 0 {
            return (bytes == [0; STATEMENT_BYTES].as_slice()).then(Statement::genesis);
        }
        let (view, rest) = rest.split_first_chunk::<4>()?;
        let (round, rest) = rest.split_first_chunk::<4>()?;
        let id = rest.try_into().ok()?;
        let kind = Kind::try_from(*kind).ok()?;
        if *proposer > n || !kind.has_height(*height) {
            return None;
        }
        Some(Statement {
            kind,
            height: *height,
            proposer: *proposer,
            view: View(u32::from_be_bytes(*view)),
            round: Round(u32::from_be_bytes(*round)),
            id,
        })
    }

    // The statement's bytes.
    pub fn bytes(&self) -> [u8; 43]
        ensures { result ≡ statement_bytes self.now }
    {
        let mut out = [0; STATEMENT_BYTES];
        let at = put(&mut out, 0, &[self.kind.into(), self.height, self.proposer]);
        let at = put(&mut out, at, &self.view.0.to_be_bytes());
        let at = put(&mut out, at, &self.round.0.to_be_bytes());
        put(&mut out, at, &self.id);
        out
    }

    // Whether the other statement says the same.
    pub fn same(&self, other: &Statement) -> bool
        ensures { result ≡ same_statement self.now other.now }
    {
        self == other
    }
}
