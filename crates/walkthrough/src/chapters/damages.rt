// The seventh chapter: damaged messages, and what each gets.
use crate::fault::Fault;
use crate::judging::judge;
use crate::sample::block;
use crate::samples::{FORM, Samples, written};
use blocks::head::Head;
use blocks::layout::put;
use blocks::limits::HEAD_BYTES;
use member::types::Refusal;
use std::alloc::Global;
use std::fmt;
use wire::kind::MessageKind;

// Bytes that are put at a place of the sample of a kind.
#[derive(Clone, Copy)]
struct Damage {
    told: &'static str,
    kind: MessageKind,
    at: usize,
    bytes: &'static [u8],
}

const DAMAGES: [Damage; 8] = [
    Damage {
        told: "a vote, as it was written",
        kind: MessageKind::Vote,
        at: 0,
        bytes: &[],
    },
    Damage {
        told: "a vote whose first byte is 8",
        kind: MessageKind::Vote,
        at: 0,
        bytes: &[8],
    },
    Damage {
        told: "a vote of signer 5",
        kind: MessageKind::Vote,
        at: 44,
        bytes: &[5],
    },
    Damage {
        told: "a proposal of a fallback block of height 3",
        kind: MessageKind::Proposal,
        at: 1,
        bytes: &[1, 3],
    },
    Damage {
        told: "a proposal of a fallback block of height 4",
        kind: MessageKind::Proposal,
        at: 1,
        bytes: &[1, 4],
    },
    Damage {
        told: "a certificate with signers 2, 1, 3",
        kind: MessageKind::Certificate,
        at: 45,
        bytes: &[2, 0, 0, 0, 0, 1],
    },
    Damage {
        told: "a timeout certificate with a count of 2",
        kind: MessageKind::TimeoutCertificate,
        at: 5,
        bytes: &[2],
    },
    Damage {
        told: "a share with the value 257",
        kind: MessageKind::Share,
        at: 6,
        bytes: &[1, 1],
    },
];

pub fn chapter(heap: Global) -> Result<String, Fault> {
    let samples = Samples::signed()?;
    let mut text = String::new(heap);
    writeln!(text, "7. Damaged messages are refused by their form")?;
    for damage in DAMAGES {
        let mut bytes = written(heap, &samples.message(damage.kind))?;
        put(&mut bytes, damage.at, damage.bytes);
        writeln!(text, "  {}: {}", damage.told, Judged(judge(FORM, &bytes)))?;
    }
    let mut vote = written(heap, &samples.message(MessageKind::Vote))?;
    vote.extend_from_slice(&[0])?;
    writeln!(
        text,
        "  a vote with a spare byte: {}
  no bytes at all: {}
  a proposal with a payload of 192 bytes: {}
  a proposal with a payload of 193 bytes: {}",
        Judged(judge(FORM, &vote)),
        Judged(judge(FORM, &[])),
        Judged(judge(FORM, &proposal(heap, 192)?)),
        Judged(judge(FORM, &proposal(heap, 193)?))
    )?;
    Ok(text)
}

// What a message's form is judged to be.
#[derive(Clone, Copy)]
struct Judged(Result<MessageKind, Refusal>);

impl fmt::Display for Judged {
    fn fmt<W: fmt::Write>(&self, f: &mut fmt::Formatter<W>) -> fmt::Result {
        match self.0 {
            Ok(kind) => write!(f, "read as kind {}", u8::from(kind)),
            Err(refusal) => write!(f, "refusal {}", u8::from(refusal)),
        }
    }
}

// A proposal with a payload of so many zeros, on genesis, whose certificate is 44 zeros.
fn proposal(heap: Global, payload: u16) -> Result<Vec<u8>, Fault> {
    let block = block()?;
    let head = Head {
        payload,
        ..block.head
    };
    let mut bytes = vec![in heap; 0; 1 + HEAD_BYTES + payload as usize + 44]?;
    let at = put(&mut bytes, 0, &[u8::from(MessageKind::Proposal)]);
    put(&mut bytes, at, &head.bytes());
    Ok(bytes)
}
