// Writing a message into a buffer.
ghost use Rattle.std.specs.Prelude.{◌≡◌, ◌+◌, ◌<◌, ◌∷◌, length, MatchOption};
ghost use Rattle.std.specs.List.{flat_map};
ghost use Rattle.wire.specs.Layouts.{gathered_bytes, message_bytes};
ghost use Rattle.wire.specs.Told.{message_told};
ghost use Rattle.wire.specs.Writing.{writing, written};

use crate::form::{Form, quorum};
use crate::message::{Gathered, Message};
use blocks::layout::put;
use coin::share_count;

// The buffer has no room for the message.
#[derive(Clone, Copy, PartialEq, Eq, Debug)]
pub struct TooShort;

// What fields leave of so many bytes, if they have room there.
fn room_after(fields: &[&[u8]], bytes: usize) -> Option<usize>
    ensures { MatchOption result (bytes < length (flat_map (λ f. f.now) fields.now)) (λ room. length (flat_map (λ f. f.now) fields.now) + room ≡ bytes) }
{
    let mut room = bytes;
    for field in fields {
        room = room.checked_sub(field.len())?;
    }
    Some(room)
}

// Writes fields one after another at the start of the buffer, if there is room for all of them.
fn write_fields(out: &mut [u8], fields: &[&[u8]]) -> Result<usize, TooShort>
    ensures answer { result ≡ writing out.old (flat_map (λ f. f.now) fields.now) }
    ensures bytes { out.new ≡ written out.old (flat_map (λ f. f.now) fields.now) }
{
    room_after(fields, out.len()).ok_or(TooShort)?;
    let mut at = 0;
    for field in fields {
        at = put(out, at, field);
    }
    Ok(at)
}

// Writes a message's number and what was gathered in a view, so many entries.
fn write_gathered(number: u8, g: Gathered, count: u8, out: &mut [u8]) -> Result<usize, TooShort>
    ensures answer { result ≡ writing out.old (number ∷ gathered_bytes g.entry.view count g.entry.entries.now) }
    ensures bytes { out.new ≡ written out.old (number ∷ gathered_bytes g.entry.view count g.entry.entries.now) }
{
    let view = g.view.0.to_be_bytes();
    write_fields(out, &[&[number], &view, &[count], g.entries])
}

// Writes the message at the start of the buffer, and says how long it is.
pub fn write(form: Form, message: &Message, out: &mut [u8]) -> Result<usize, TooShort>
    ensures answer { result ≡ writing out.old (message_bytes form (message_told message.now)) }
    ensures bytes { out.new ≡ written out.old (message_bytes form (message_told message.now)) }
{
    let n = form.members;
    let number = u8::from(message.kind());
    match *message {
        Message::Proposal(p) => {
            let block = p.block.part.bytes;
            write_fields(out, &[&[number], block, p.certificate.part.bytes])
        }
        Message::Vote(v) => {
            let said = v.statement.bytes();
            write_fields(out, &[&[number], &said, &[v.signer], v.tag])
        }
        Message::Timeout(t) => {
            let view = t.view.0.to_be_bytes();
            let highest = t.certificate.part.bytes;
            write_fields(out, &[&[number], &view, &[t.signer], t.tag, highest])
        }
        Message::TimeoutCertificate(g) => write_gathered(number, g, quorum(n), out),
        Message::Certificate(c) => write_fields(out, &[&[number], c.part.bytes]),
        Message::Share(s) => {
            let view = s.view.0.to_be_bytes();
            let value = s.value.to_be_bytes();
            write_fields(out, &[&[number], &view, &[s.member], &value, s.tag])
        }
        Message::CoinCertificate(g) => write_gathered(number, g, share_count(n), out),
    }
}
