// The sixth chapter: the seven messages, written and read back.
use crate::fault::Fault;
use crate::fields::Fields;
use crate::hex::Hex;
use crate::samples::{FORM, Samples, written};
use std::alloc::Global;
use wire::kind::MessageKind;
use wire::reader::read;

// The seven kinds, in the order of their numbers.
const KINDS: [MessageKind; 7] = [
    MessageKind::Proposal,
    MessageKind::Vote,
    MessageKind::Timeout,
    MessageKind::TimeoutCertificate,
    MessageKind::Certificate,
    MessageKind::Share,
    MessageKind::CoinCertificate,
];

pub fn chapter(heap: Global) -> Result<String, Fault> {
    let samples = Samples::signed()?;
    let mut text = String::new(heap);
    writeln!(
        text,
        "6. Seven messages are written and read back, with tags of the book"
    )?;
    for kind in KINDS {
        let bytes = written(heap, &samples.message(kind))?;
        let message = read(FORM, &bytes).or(Err(Fault::Step))?;
        write!(
            text,
            "  {} {}, {} bytes
    {}
{}",
            u8::from(kind),
            name_of(kind),
            bytes.len(),
            Hex(&bytes),
            Fields(message)
        )?;
    }
    Ok(text)
}

fn name_of(kind: MessageKind) -> &'static str {
    match kind {
        MessageKind::Proposal => "proposal",
        MessageKind::Vote => "vote",
        MessageKind::Timeout => "timeout",
        MessageKind::TimeoutCertificate => "timeout certificate",
        MessageKind::Certificate => "certificate",
        MessageKind::Share => "share",
        MessageKind::CoinCertificate => "coin certificate",
    }
}
