// Proposing a block.
ghost use Rattle.std.specs.Prelude.{◌≡◌, ◌<◌, ◌≤◌, true, ◌++◌, length, OnOk};
ghost use Rattle.std.specs.Result.{result_err};
ghost use Rattle.blocks.specs.Heads.{head_bytes};
ghost use Rattle.blocks.specs.Layout.{overlay};
ghost use Rattle.wire.specs.Forms.{form_of};
ghost use Rattle.member.specs.Calls.{Leaves};
ghost use Rattle.member.specs.Memories.{lent};
ghost use Rattle.member.specs.Propose.{in_turn, planned, propose, propose_rules, proposal_message, proposal_bytes};
ghost use Rattle.member.specs.Rules.{first_broken};
ghost use Rattle.member.specs.Shelf.{certificate_length};
ghost use Rattle.member.specs.Sizes.{Sized};

use crate::memory::Memory;
use crate::send::send;
use crate::shelf::shelved;
use crate::sizes::Lengths;
use crate::state::Member;
use crate::types::*;
use crate::votes::next_round;
use arrayvec::ArrayVec;
use attest::attestor::Attestor;
use blocks::head::Head;
use blocks::limits::{HEAD_BYTES, LAST_ROUND, PAYLOAD_MOST};
use blocks::rank::Round;
use blocks::statement::Statement;
use wire::certificate::Certificate;
use wire::form::Form;
use wire::limits::CERTIFICATE_MOST;
use wire::message::{Block, Message, Proposal};
use wire::parts::Part;

// The bytes of the largest block.
const BLOCK_MOST: usize = HEAD_BYTES + PAYLOAD_MOST;

// The block's bytes, head and payload.
fn block_bytes(head: &Head, payload: &[u8]) -> ArrayVec<u8, BLOCK_MOST>
    requires { length payload.now ≤ 192 }
    ensures { result.items ≡ head_bytes head.now ++ payload.now }
{
    let mut block = ArrayVec::new();
    block.try_extend_from_slice(&head.bytes()).unwrap();
    block.try_extend_from_slice(payload).unwrap();
    block
}

// Writes the proposal of a block with the certificate of its parent: its length.
fn write_proposal<'a>(
    form: Form,
    head: Head,
    block: &'a [u8],
    parent: Statement,
    certificate: &'a [u8],
    out: &mut [u8],
) -> usize
    requires block { length block.now ≤ 237 }
    requires certificate { length certificate.now ≤ 1925 }
    requires room { length out.old ≡ 2200 }
    ensures length { result ≡ length (proposal_bytes form head block.now parent certificate.now) }
    ensures bytes { out.new ≡ overlay out.old (proposal_bytes form head block.now parent certificate.now) }
{
    let message = Message::Proposal(Proposal {
        block: Block {
            head,
            part: Part {
                bytes: block,
                at: 1,
            },
        },
        certificate: Certificate {
            statement: parent,
            part: Part {
                bytes: certificate,
                at: 1 + block.len(),
            },
        },
    });
    send(form, &message, out)
}

impl Member {
    // Whether a payload of this length may be proposed: refused by the first rule that is broken.
    fn judge_proposal(&self, lengths: &Lengths, payload: usize) -> Result<(), Refusal>
        ensures answer { result_err result ≡ first_broken (propose_rules self.now lengths.now payload) }
        ensures parts { OnOk result (Sized self.now.site lengths.now) }
        ensures short { OnOk result (payload ≤ 192) }
        ensures turn { OnOk result (in_turn self.now ≡ true) }
    {
        if !lengths.fit(&self.site) {
            return Err(Refusal::Sizes);
        }
        if payload > PAYLOAD_MOST {
            return Err(Refusal::Form);
        }
        if !self.may_propose() {
            return Err(Refusal::OutOfStage);
        }
        if next_round(self.plan().base.statement.round) > Round(LAST_ROUND) {
            return Err(Refusal::Ended);
        }
        Ok(())
    }

    // Writes the planned proposal: its length.
    fn write_planned(
        &self,
        form: Form,
        shelf: &[[u8; CERTIFICATE_MOST]],
        payload: &[u8],
        out: &mut [u8],
    ) -> usize
        requires turn { in_turn self.now ≡ true }
        requires place { (planned self.now).base.place < length shelf.now }
        requires within { certificate_length form (planned self.now).base.statement ≤ 1925 }
        requires payload { length payload.now ≤ 192 }
        requires room { length out.old ≡ 2200 }
        ensures length { result ≡ length (proposal_message form self.now shelf.now payload.now) }
        ensures bytes { out.new ≡ overlay out.old (proposal_message form self.now shelf.now payload.now) }
    {
        let plan = self.plan();
        let head = self.head_on(&plan, payload.len() as u16);
        let block = block_bytes(&head, payload);
        let parent = plan.base.statement;
        let certificate = shelved(form, shelf, plan.base.place, &parent);
        write_proposal(form, head, block.as_slice(), parent, certificate, out)
    }

    // Proposes a block with the payload, to all: as the leader, in steady, on the highest certificate; in fallback the next
    // height of the own chain. Once each.
    #[tactic(auto, using(crate::proofs::Rooms::certificate_fits, crate::proofs::Planned::planned_place))]
    pub fn propose<A: Attestor>(
        &mut self,
        attestor: &A,
        memory: Memory<'_>,
        payload: &[u8],
        out: &mut [u8],
    ) -> Result<Answer, Refusal>
        ensures { Leaves (propose (form_of A.Attestor self.old.site.members 0) self.old (lent attestor.entry.now memory.entry out.old) payload.now) result self.new attestor.entry.now out.new }
    {
        self.judge_proposal(&memory.lengths(out.len()), payload.len())?;
        let form = Form::of::<A>(self.site.members, 0);
        let length = self.write_planned(form, memory.shelf, payload, out);
        self.proposed = self.plan().step;
        Ok(Answer {
            to: Address::All,
            length,
            committed: 0,
        })
    }
}
