// Reading a message: once, where it comes in.
ghost use Rattle.std.specs.Prelude.{◌≡◌, ◌≤◌, length, IfSome, cond, Some, None};
ghost use Rattle.std.specs.Option.{option_map};
ghost use Rattle.wire.specs.Kinds.{kind_number};
ghost use Rattle.wire.specs.Messages.{gathered, gathered_formed, read_block, read_proposal, read_vote, read_timeout, read_timeout_certificate, read_sole, read_share, read_coin_certificate, by_kind, read_message};
ghost use Rattle.wire.specs.Told.{block_told, gathered_told, message_told, told};

use crate::certificate::read_certificate;
use crate::entries::Wanted;
use crate::form::{Form, quorum};
use crate::kind::MessageKind;
use crate::message::*;
use crate::parts::{Part, read_said, read_viewed};
use blocks::head::Head;
use blocks::limits::HEAD_BYTES;
use coin::is_member;

// The bytes have not the form of a message.
#[derive(Clone, Copy, PartialEq, Eq, Debug)]
pub struct Malformed;

// The block that the part of a message begins with.
fn read_block<'a>(form: Form, part: Part<'a>) -> Option<Block<'a>>
    ensures read { option_map block_told result ≡ read_block form part.entry.at part.entry.bytes.now }
    ensures within { IfSome result (λ b. length b.part.bytes.now ≤ length part.entry.bytes.now) }
{
    let head = Head::read(part.bytes.get(..HEAD_BYTES)?, form.members)?;
    let bytes = part.bytes.get(..HEAD_BYTES + head.payload as usize)?;
    Some(Block {
        head,
        part: Part { bytes, at: part.at },
    })
}

fn read_proposal<'a>(form: Form, bytes: &'a [u8]) -> Option<Message<'a>>
    ensures { option_map message_told result ≡ read_proposal form bytes.now }
{
    let block = read_block(form, Part { bytes, at: 1 })?;
    let end = block.part.bytes.len();
    let parent = Part {
        bytes: bytes.get(end..)?,
        at: 1 + end,
    };
    let certificate = read_certificate(form, parent)?;
    Some(Message::Proposal(Proposal { block, certificate }))
}

fn read_vote<'a>(form: Form, bytes: &'a [u8]) -> Option<Message<'a>>
    ensures { option_map message_told result ≡ read_vote form bytes.now }
{
    let (statement, signer, tag) = read_said(form.members, bytes)?;
    if !is_member(form.members, signer) || tag.len() != form.width as usize {
        return None;
    }
    Some(Message::Vote(Vote {
        statement,
        signer,
        tag,
    }))
}

fn read_timeout<'a>(form: Form, bytes: &'a [u8]) -> Option<Message<'a>>
    ensures { option_map message_told result ≡ read_timeout form bytes.now }
{
    let width = form.width as usize;
    let (view, signer, rest) = read_viewed(bytes)?;
    let (tag, rest) = rest.split_at_checked(width)?;
    if !is_member(form.members, signer) {
        return None;
    }
    let highest = Part {
        bytes: rest,
        at: 6 + width,
    };
    let certificate = read_certificate(form, highest)?;
    Some(Message::Timeout(Timeout {
        view,
        signer,
        tag,
        certificate,
    }))
}

// What was gathered in a view, if it is the entries that are wanted.
#[inline(always)]
fn read_gathered<'a>(wanted: Wanted, bytes: &'a [u8]) -> Option<Gathered<'a>>
    ensures { option_map gathered_told result ≡ cond (gathered_formed wanted.members wanted.limit wanted.wide wanted.count bytes.now) (Some (gathered bytes.now)) None }
{
    let (view, count, entries) = read_viewed(bytes)?;
    wanted
        .met_by(count, entries)
        .then_some(Gathered { view, entries })
}

fn read_timeout_certificate<'a>(form: Form, bytes: &'a [u8]) -> Option<Message<'a>>
    ensures { option_map message_told result ≡ read_timeout_certificate form bytes.now }
{
    read_gathered(form.tags(quorum(form.members)), bytes).map(Message::TimeoutCertificate)
}

fn read_sole<'a>(form: Form, bytes: &'a [u8]) -> Option<Message<'a>>
    ensures { option_map message_told result ≡ read_sole form bytes.now }
{
    read_certificate(form, Part { bytes, at: 1 }).map(Message::Certificate)
}

fn read_share<'a>(form: Form, bytes: &'a [u8]) -> Option<Message<'a>>
    ensures { option_map message_told result ≡ read_share form bytes.now }
{
    let (view, member, rest) = read_viewed(bytes)?;
    let [high, low, tag @ ..] = rest else {
        return None;
    };
    let value = u16::from_be_bytes([*high, *low]);
    if !is_member(form.members, member)
        || value > form.greatest
        || tag.len() != form.width as usize
    {
        return None;
    }
    Some(Message::Share(Share {
        view,
        member,
        value,
        tag,
    }))
}

fn read_coin_certificate<'a>(form: Form, bytes: &'a [u8]) -> Option<Message<'a>>
    ensures { option_map message_told result ≡ read_coin_certificate form bytes.now }
{
    read_gathered(form.shares(), bytes).map(Message::CoinCertificate)
}

// What follows the first byte, read as a message of the kind.
fn read_kind<'a>(form: Form, kind: MessageKind, rest: &'a [u8]) -> Option<Message<'a>>
    ensures { option_map message_told result ≡ by_kind form (kind_number kind) rest.now }
{
    match kind {
        MessageKind::Proposal => read_proposal(form, rest),
        MessageKind::Vote => read_vote(form, rest),
        MessageKind::Timeout => read_timeout(form, rest),
        MessageKind::TimeoutCertificate => read_timeout_certificate(form, rest),
        MessageKind::Certificate => read_sole(form, rest),
        MessageKind::Share => read_share(form, rest),
        MessageKind::CoinCertificate => read_coin_certificate(form, rest),
    }
}

// The message that the bytes are.
pub fn read<'a>(form: Form, message: &'a [u8]) -> Result<Message<'a>, Malformed>
    ensures { told result ≡ read_message form message.now }
{
    let [number, rest @ ..] = message else {
        return Err(Malformed);
    };
    let kind = MessageKind::try_from(*number)?;
    read_kind(form, kind, rest).ok_or(Malformed)
}
