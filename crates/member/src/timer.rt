// A timer that has run out.
ghost use Rattle.std.specs.Prelude.{◌≡◌, ◌<◌, ◌≤◌, length};
ghost use Rattle.blocks.specs.Layout.{overlay};
ghost use Rattle.wire.specs.Forms.{form_of};
ghost use Rattle.member.specs.Calls.{Leaves};
ghost use Rattle.member.specs.Memories.{lent};
ghost use Rattle.member.specs.Shelf.{certificate_length};
ghost use Rattle.member.specs.Timer.{timer, timeout_message};

use crate::memory::Memory;
use crate::send::send;
use crate::shelf::shelved;
use crate::state::Member;
use crate::types::*;
use attest::attestor::{Attestor, TAG_ROOM};
use wire::certificate::Certificate;
use wire::form::Form;
use wire::limits::CERTIFICATE_MOST;
use wire::message::{Message, Timeout};
use wire::parts::Part;
use wire::words::timeout_words;

impl Member {
    // The timeout with this tag and the highest certificate, written to the start of the buffer: its length.
    fn write_timeout<'a>(
        &self,
        form: Form,
        shelf: &'a [[u8; CERTIFICATE_MOST]],
        tag: &'a [u8],
        out: &mut [u8],
    ) -> usize
        requires high { 0 < length shelf.now }
        requires within { certificate_length form self.now.chain.high ≤ 1925 }
        requires tag { length tag.now ≤ 208 }
        requires room { length out.old ≡ 2200 }
        ensures length { result ≡ length (timeout_message form self.now shelf.now tag.now) }
        ensures bytes { out.new ≡ overlay out.old (timeout_message form self.now shelf.now tag.now) }
    {
        let high = self.chain.high;
        let message = Message::Timeout(Timeout {
            view: self.phase.view,
            signer: self.site.own,
            tag,
            certificate: Certificate {
                statement: high,
                part: Part {
                    bytes: shelved(form, shelf, 0, &high),
                    at: 6 + form.width as usize,
                },
            },
        });
        send(form, &message, out)
    }

    // The view's timer has run out: in steady the member times out, and a timeout with its highest certificate goes to all.
    #[tactic(auto, using(crate::proofs::Rooms::certificate_fits))]
    pub fn timer<A: Attestor>(
        &mut self,
        attestor: &mut A,
        memory: Memory<'_>,
        out: &mut [u8],
    ) -> Result<Answer, Refusal>
        ensures { Leaves (timer A.Attestor (form_of A.Attestor self.old.site.members 0) self.old (lent attestor.entry.now memory.entry out.old)) result self.new attestor.exit.now out.new }
    {
        if !memory.lengths(out.len()).fit(&self.site) {
            return Err(Refusal::Sizes);
        }
        if self.phase.stage != Stage::Steady {
            return Err(Refusal::OutOfStage);
        }
        let words = timeout_words(self.phase.view);
        let mut tag = [0; TAG_ROOM];
        let width = attestor.sign(&words, &mut tag)?;
        let form = Form::of::<A>(self.site.members, 0);
        let length = self.write_timeout(form, memory.shelf, &tag[..width], out);
        self.phase.stage = Stage::TimedOut;
        Ok(Answer {
            to: Address::All,
            length,
            committed: 0,
        })
    }
}
