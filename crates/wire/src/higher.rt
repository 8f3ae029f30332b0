// The higher of two certificates.
ghost use Rattle.std.specs.Prelude.{◌≡◌, ◌<◌, ◌≤◌, length, take, MatchOption, if◌then◌else◌};
ghost use Rattle.blocks.specs.Ranks.{less_rank};
ghost use Rattle.blocks.specs.Statements.{rank_of, statement_of};
ghost use Rattle.wire.specs.Higher.{certificate_rank, higher_of};

use blocks::limits::STATEMENT_BYTES;
use blocks::rank::{Kind, Rank, Round, View};
use blocks::statement::Statement;

// The rank of the statement that the bytes begin with, if they are as many.
fn rank_in(bytes: &[u8]) -> Option<Rank>
    ensures { MatchOption result (length bytes.now < 43) (λ rank. (43 ≤ length bytes.now) × (rank ≡ rank_of (statement_of (take 43 bytes.now)))) }
{
    let [kind, _, _, v0, v1, v2, v3, r0, r1, r2, r3, ..] = bytes.first_chunk::<STATEMENT_BYTES>()?;
    Some(Rank {
        view: View(u32::from_be_bytes([*v0, *v1, *v2, *v3])),
        kind: Kind::try_from(*kind).unwrap_or(Kind::Fallback),
        round: Round(u32::from_be_bytes([*r0, *r1, *r2, *r3])),
    })
}

// The rank of what a certificate certifies; bytes that are too few for a statement rank as genesis.
pub fn certificate_rank(bytes: &[u8]) -> Rank
    ensures { result ≡ certificate_rank bytes.now }
{
    rank_in(bytes).unwrap_or(Statement::genesis().rank())
}

// Of two certificates the higher in rank, as the very bytes that held it; the first at equal rank.
pub fn higher<'a>(first: &'a [u8], second: &'a [u8]) -> &'a [u8]
    ensures same { result ≡ (if less_rank (certificate_rank first.now) (certificate_rank second.now) then second.entry else first.entry) }
    ensures bytes { result.now ≡ higher_of first.now second.now }
{
    if certificate_rank(first).below(&certificate_rank(second)) {
        second
    } else {
        first
    }
}
