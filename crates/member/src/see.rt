// Seeing a certificate.
ghost use Rattle.std.specs.Prelude.{◌≡◌};
ghost use Rattle.member.specs.Exit.{place_of};
ghost use Rattle.member.specs.See.{unendorsed, see, seeing, newly};
ghost use Rattle.member.specs.States.{winner_of};

use crate::state::*;
use crate::votes::next_round;
use blocks::rank::{Kind, View};
use blocks::statement::Statement;
use table::committed::{commit, committed_count};
use table::held::Held;
use table::places::{block_at, find, parent_of};

impl Chain {
    // The chain with another last committed place, once the certificate of the block at a place is seen.
    fn seen_to(&self, table: &[Held], statement: &Statement, place: usize, last: usize) -> Chain
        ensures round { result.round ≡ (see self.now table.now statement.now place).round }
        ensures lock { result.lock ≡ (see self.now table.now statement.now place).lock }
        ensures high { result.high ≡ (see self.now table.now statement.now place).high }
        ensures last { result.last ≡ last }
    {
        let parent = block_at(table, parent_of(table, place)).rank();
        let high = if self.high.rank() < statement.rank() {
            *statement
        } else {
            self.high
        };
        Chain {
            round: self.round.max(next_round(statement.round)),
            lock: parent.max(self.lock),
            high,
            last,
        }
    }

    // The chain once the certificate of the block at a place is seen; none is a fork.
    pub(crate) fn seeing(
        &self,
        table: &[Held],
        statement: &Statement,
        place: usize,
    ) -> Option<Chain>
        ensures { result ≡ seeing self.now table.now statement.now place }
    {
        let last = commit(table, self.last, place)?;
        Some(self.seen_to(table, statement, place, last))
    }

    // How many blocks the change to another chain commits.
    pub(crate) fn newly(&self, table: &[Held], after: &Chain) -> u32
        ensures { result ≡ newly table.now self.now after.now }
    {
        committed_count(table, after.last).saturating_sub(committed_count(table, self.last))
    }
}

// The place of the block that the statement is of; of genesis where it is not held.
pub(crate) fn place_of(table: &[Held], held: usize, statement: &Statement) -> usize
    ensures { result ≡ place_of table.now held statement.now }
{
    find(table, held, &statement.id).unwrap_or(0)
}

impl Member {
    // Who won a view whose coin has fallen.
    pub(crate) fn winner_of(&self, view: View) -> Option<u8>
        ensures { result ≡ winner_of self.now view.0 }
    {
        self.winners.get(view.0 as usize).copied().flatten()
    }

    // Whether a statement is of a past view's fallback and not of its winner's chain.
    pub(crate) fn unendorsed(&self, statement: &Statement) -> bool
        ensures { result ≡ unendorsed self.now statement.now }
    {
        statement.kind == Kind::Fallback
            && statement.view < self.phase.view
            && self.winner_of(statement.view) != Some(statement.proposer)
    }
}
