// Certificates on the shelf: high at place 0, the recorded one of a member at its number.
ghost use Rattle.std.specs.Prelude.{◌≡◌, ◌<◌, ◌≤◌, [], length, slice_index_or, slice_set};
ghost use Rattle.blocks.specs.Layout.{overlay};
ghost use Rattle.member.specs.Shelf.{certificate_length, shelved};

use blocks::layout::put;
use blocks::limits::STATEMENT_BYTES;
use blocks::statement::Statement;
use wire::certificate::count_for;
use wire::form::Form;
use wire::limits::CERTIFICATE_MOST;

// The bytes of a certificate of the statement.
pub(crate) fn certificate_length(form: Form, statement: &Statement) -> usize
    ensures { result ≡ certificate_length form statement.now }
{
    let count = count_for(form.members, statement);
    STATEMENT_BYTES + 1 + usize::from(count) * (1 + usize::from(form.width))
}

// The certificate of the statement at a place of the shelf.
pub(crate) fn shelved<'a>(
    form: Form,
    shelf: &'a [[u8; CERTIFICATE_MOST]],
    place: usize,
    statement: &Statement,
) -> &'a [u8]
    requires place { place < length shelf.now }
    requires within { certificate_length form statement.now ≤ 1925 }
    ensures bytes { result.now ≡ shelved form shelf.now place statement.now }
    ensures long { length result.now ≡ certificate_length form statement.now }
{
    let end = certificate_length(form, statement);
    &shelf[place][..end]
}

// A certificate's bytes at the start of a place of the shelf.
pub(crate) fn shelve(shelf: &mut [[u8; CERTIFICATE_MOST]], place: usize, bytes: &[u8])
    requires place { place < length shelf.old }
    requires room { length bytes.now ≤ 1925 }
    ensures { shelf.new ≡ slice_set shelf.old place (overlay (slice_index_or shelf.old place []) bytes.now) }
{
    put(&mut shelf[place], 0, bytes);
}
