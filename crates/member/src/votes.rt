// When a member votes for a block.
ghost use Rattle.std.specs.Prelude.{◌≡◌};
ghost use Rattle.member.specs.See.{next_round};
ghost use Rattle.member.specs.Votes.{respects_lock, votes_regular, votes_fallback, votes};

use crate::rows::{Row, row_of};
use crate::state::*;
use crate::types::Stage;
use blocks::head::Head;
use blocks::rank::{Kind, Rank, Round};

// The round after this one.
pub(crate) fn next_round(round: Round) -> Round
    ensures { result.0 ≡ next_round round.0 }
{
    Round(round.0.saturating_add(1))
}

impl Chain {
    // Whether a parent of this rank does not lie below the lock.
    fn respects_lock(&self, parent: &Rank) -> bool
        ensures { result ≡ respects_lock self.now parent.now }
    {
        *parent >= self.lock
    }
}

fn votes_regular(phase: &Phase, chain: &Chain, head: &Head, parent: &Rank) -> bool
    ensures { result ≡ votes_regular phase.now chain.now head.now parent.now }
{
    phase.stage == Stage::Steady
        && head.view == phase.view
        && head.round == chain.round
        && phase.voted < head.round
        && chain.respects_lock(parent)
}

fn votes_fallback(phase: &Phase, chain: &Chain, row: &Row, head: &Head, parent: &Rank) -> bool
    ensures { result ≡ votes_fallback phase.now chain.now row.now head.now parent.now }
{
    let follows = if head.height == 1 {
        chain.respects_lock(parent)
    } else {
        row.round < head.round
    };
    phase.stage == Stage::InFallback
        && head.view == phase.view
        && row.height < head.height
        && follows
}

// Whether the member votes for a block whose parent has this rank.
pub(crate) fn votes(
    phase: &Phase,
    chain: &Chain,
    rows: &[Row; 13],
    head: &Head,
    parent: &Rank,
) -> bool
    ensures { result ≡ votes phase.now chain.now rows.now head.now parent.now }
{
    match head.kind {
        Kind::Regular => votes_regular(phase, chain, head, parent),
        Kind::Fallback => {
            let row = row_of(rows, head.proposer);
            votes_fallback(phase, chain, &row, head, parent)
        }
    }
}
