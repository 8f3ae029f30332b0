// What a member would propose, and whether it may.
ghost use Rattle.std.specs.Prelude.{◌≡◌, ◌<◌, true, ◌==◌};
ghost use Rattle.blocks.specs.Ranks.{leader};
ghost use Rattle.member.specs.Propose.{recorded_height, fallback_base, regular_plan, fallback_plan, planned, in_turn, may_propose, head_on};

use crate::rows::row_of;
use crate::state::*;
use crate::types::Stage;
use crate::votes::next_round;
use blocks::head::Head;
use blocks::rank::{Kind, Round, leader};
use blocks::statement::Statement;

// What a block is built on: the certified block, and its certificate's place on the shelf.
#[derive(Clone, Copy)]
pub struct Base {
    pub statement: Statement,
    pub place: usize,
}

// A block to propose.
#[derive(Clone, Copy)]
pub struct Plan {
    pub step: Proposed,
    pub height: u8,
    pub base: Base,
}

// The height of a recorded certificate, 0 where there is none.
fn recorded_height(certificate: &Option<Statement>) -> u8
    ensures { result ≡ recorded_height certificate.now }
{
    certificate.map_or(0, |statement| statement.height)
}

impl Member {
    // Height 1 stands on the highest certificate, a greater one on the own row's.
    fn fallback_base(&self, certificate: &Option<Statement>) -> Base
        ensures { result ≡ fallback_base self.now certificate.now }
    {
        match certificate {
            Some(statement) => Base {
                statement: *statement,
                place: usize::from(self.site.own),
            },
            None => Base {
                statement: self.chain.high,
                place: 0,
            },
        }
    }

    fn regular_plan(&self) -> Plan
        ensures { result ≡ regular_plan self.now }
    {
        Plan {
            step: Proposed {
                view: self.phase.view,
                kind: Kind::Regular,
                step: self.chain.round.0,
            },
            height: 0,
            base: Base {
                statement: self.chain.high,
                place: 0,
            },
        }
    }

    fn fallback_plan(&self, certificate: &Option<Statement>) -> Plan
        requires { recorded_height certificate.now < 3 }
        ensures { result ≡ fallback_plan self.now certificate.now }
    {
        let height = recorded_height(certificate) + 1;
        Plan {
            step: Proposed {
                view: self.phase.view,
                kind: Kind::Fallback,
                step: u32::from(height),
            },
            height,
            base: self.fallback_base(certificate),
        }
    }

    // The block that is next to be proposed, where it is the member's turn.
    pub(crate) fn plan(&self) -> Plan
        requires { in_turn self.now ≡ true }
        ensures { result ≡ planned self.now }
    {
        if self.phase.stage == Stage::InFallback {
            let row = row_of(&self.rows, self.site.own);
            self.fallback_plan(&row.certificate)
        } else {
            self.regular_plan()
        }
    }

    // Whether it is the member's turn: in steady as the leader of its round, which follows the highest certificate's; in
    // fallback up to height 3.
    pub(crate) fn in_turn(&self) -> bool
        requires { 0 < self.now.site.members }
        ensures { result ≡ in_turn self.now }
    {
        match self.phase.stage {
            Stage::Steady => {
                self.leads(self.chain.round)
                    && next_round(self.chain.high.round) == self.chain.round
            }
            Stage::TimedOut => false,
            Stage::InFallback => {
                let row = row_of(&self.rows, self.site.own);
                recorded_height(&row.certificate) < 3
            }
        }
    }

    // Whether the member is the leader of the round.
    fn leads(&self, round: Round) -> bool
        requires { 0 < self.now.site.members }
        ensures { result ≡ (leader self.now.site.members round.0 == self.now.site.own) }
    {
        leader(self.site.members, round) == Some(self.site.own)
    }

    // Whether the member may propose: in turn, and not proposed before.
    pub(crate) fn may_propose(&self) -> bool
        requires { 0 < self.now.site.members }
        ensures { result ≡ may_propose self.now }
    {
        self.in_turn() && self.proposed < self.plan().step
    }

    // The head of the planned block, with a payload of this length.
    pub(crate) fn head_on(&self, plan: &Plan, payload: u16) -> Head
        ensures { result ≡ head_on self.now plan.now payload }
    {
        Head {
            kind: plan.step.kind,
            height: plan.height,
            proposer: self.site.own,
            view: self.phase.view,
            round: next_round(plan.base.statement.round),
            parent: plan.base.statement.id,
            payload,
        }
    }
}
