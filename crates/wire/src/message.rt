// The seven messages, as parts of the bytes that hold them.
ghost use Rattle.std.specs.Prelude.{◌≡◌};

use crate::certificate::Certificate;
use crate::kind::MessageKind;
use crate::parts::Part;
use blocks::head::Head;
use blocks::rank::View;
use blocks::statement::Statement;

// A block: its head, and the part of the message that holds head and payload.
#[derive(Clone, Copy)]
pub struct Block<'a> {
    pub head: Head,
    pub part: Part<'a>,
}

// A block and the certificate of its parent.
#[derive(Clone, Copy)]
pub struct Proposal<'a> {
    pub block: Block<'a>,
    pub certificate: Certificate<'a>,
}

#[derive(Clone, Copy)]
pub struct Vote<'a> {
    pub statement: Statement,
    pub signer: u8,
    pub tag: &'a [u8],
}

// The signer's view ran out; its highest certificate comes along.
#[derive(Clone, Copy)]
pub struct Timeout<'a> {
    pub view: View,
    pub signer: u8,
    pub tag: &'a [u8],
    pub certificate: Certificate<'a>,
}

// Entries gathered from several members in one view: timeouts, or shares.
#[derive(Clone, Copy)]
pub struct Gathered<'a> {
    pub view: View,
    pub entries: &'a [u8],
}

// A member's share of a view's coin, signed by the dealer.
#[derive(Clone, Copy)]
pub struct Share<'a> {
    pub view: View,
    pub member: u8,
    pub value: u16,
    pub tag: &'a [u8],
}

#[derive(Clone, Copy)]
pub enum Message<'a> {
    Proposal(Proposal<'a>),
    Vote(Vote<'a>),
    Timeout(Timeout<'a>),
    TimeoutCertificate(Gathered<'a>),
    Certificate(Certificate<'a>),
    Share(Share<'a>),
    CoinCertificate(Gathered<'a>),
}

impl Message<'_> {
    ghost use Rattle.wire.specs.Kinds.{kind_number};
    ghost use Rattle.wire.specs.Layouts.{message_number};
    ghost use Rattle.wire.specs.Told.{message_told};

    // What the message is.
    pub fn kind(&self) -> MessageKind
        ensures { kind_number result ≡ message_number (message_told self.now) }
    {
        match self {
            Message::Proposal(_) => MessageKind::Proposal,
            Message::Vote(_) => MessageKind::Vote,
            Message::Timeout(_) => MessageKind::Timeout,
            Message::TimeoutCertificate(_) => MessageKind::TimeoutCertificate,
            Message::Certificate(_) => MessageKind::Certificate,
            Message::Share(_) => MessageKind::Share,
            Message::CoinCertificate(_) => MessageKind::CoinCertificate,
        }
    }
}
