// Parts of a message.
ghost use Rattle.std.specs.Prelude.{◌<◌, length, MatchOption};
ghost use Rattle.wire.specs.Parts.{SaysFirst, SaysNothing, ViewFirst};

use blocks::limits::STATEMENT_BYTES;
use blocks::rank::View;
use blocks::statement::Statement;

// A part of a message, with its place in it.
#[derive(Clone, Copy)]
pub struct Part<'a> {
    pub bytes: &'a [u8],
    pub at: usize,
}

// The statement that the bytes begin with, the byte that follows it, and the rest.
#[inline(always)]
pub(crate) fn read_said(n: u8, bytes: &[u8]) -> Option<(Statement, u8, &[u8])>
    ensures { MatchOption result (SaysNothing n bytes.now) (λ p. SaysFirst n bytes.now p.0 p.1 p.2.now) }
{
    let (said, rest) = bytes.split_at_checked(STATEMENT_BYTES)?;
    let (byte, rest) = rest.split_first()?;
    Some((Statement::read(said, n)?, *byte, rest))
}

// The view that the bytes begin with, the byte that follows it, and the rest.
#[inline(always)]
pub(crate) fn read_viewed(bytes: &[u8]) -> Option<(View, u8, &[u8])>
    ensures { MatchOption result (length bytes.now < 5) (λ p. ViewFirst bytes.now p.0 p.1 p.2.now) }
{
    let [a, b, c, d, byte, rest @ ..] = bytes else {
        return None;
    };
    Some((View(u32::from_be_bytes([*a, *b, *c, *d])), *byte, rest))
}
