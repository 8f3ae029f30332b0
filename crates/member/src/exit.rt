// Entering a view's fallback, and leaving the view by its coin.
ghost use Rattle.std.specs.Prelude.{◌≡◌, ◌<◌};
ghost use Rattle.member.specs.Exit.{entered, exit_phase, exit_seeing, exit_to};
ghost use Rattle.member.specs.States.{with_phase};

use crate::rows::{Row, row_of};
use crate::see::place_of;
use crate::state::*;
use crate::types::Stage;
use blocks::rank::View;
use blocks::statement::Statement;
use table::held::Held;

impl Chain {
    // The chain at exit, once the certificate that the winner's row held is seen; none is a fork.
    pub(crate) fn exit_seeing(
        &self,
        table: &[Held],
        held: usize,
        certificate: &Option<Statement>,
    ) -> Option<Chain>
        ensures { result ≡ exit_seeing self.now table.now held certificate.now }
    {
        match certificate {
            Some(statement) => self.seeing(table, statement, place_of(table, held, statement)),
            None => Some(*self),
        }
    }
}

impl Phase {
    // The phase after an exit by the winner of this row.
    fn exit(&self, row: &Row) -> Phase
        requires { self.now.view.0 < 1023 }
        ensures { result ≡ exit_phase self.now row.now }
    {
        let voted = if self.stage == Stage::InFallback {
            self.voted.max(row.round)
        } else {
            self.voted
        };
        Phase {
            view: View(self.view.0 + 1),
            stage: Stage::Steady,
            voted,
        }
    }
}

impl Member {
    // The member goes to its view's fallback.
    pub(crate) fn enter(&mut self)
        ensures { self.new ≡ with_phase self.old (entered self.old.phase) }
    {
        self.phase.stage = Stage::InFallback;
    }

    // The view ends by its winner; the chain is that of `exit_seeing`.
    pub(crate) fn exit_to(&mut self, chain: Chain, winner: u8)
        requires { self.old.phase.view.0 < 1023 }
        ensures { self.new ≡ exit_to self.old chain winner }
    {
        let row = row_of(&self.rows, winner);
        self.winners[self.phase.view.0 as usize] = Some(winner);
        self.phase = self.phase.exit(&row);
        self.chain = chain;
        self.rows = [Row::empty(); 13];
    }
}
