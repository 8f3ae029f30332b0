// The book: an attestor over a lent table of entries, for members that share one process.
ghost use Rattle.std.specs.Prelude.{◌≡◌, ◌+◌, ◌*◌, ◌≤◌, max, is_ok, if◌then◌else◌, nat_le};
ghost use Rattle.attest.specs.Book.{entered, holds_at, book_over, handed_to, book_accepts, book_signs, book_tag, book_signed};
ghost use Rattle.attest.specs.BookLaws.{book_laws};

use crate::attestor::{Attestor, TAG_ROOM, WORDS_MOST, WillNotSign};
use crate::entry::Entry;
use crate::group::GroupSize;

/// The most entries of a book, however long its table.
pub const BOOK_MOST: u32 = 4096;

/// Who signed which words, for members that share one process. A tag is the place of its entry, from 0, in four bytes, the
/// highest first. The book is in the hands of one of them at a time.
#[derive(Drop)]
pub struct Book<'a> {
    owner: u8,
    group: GroupSize,
    count: u32,
    entries: &'a mut [Entry],
}

/// The number is of no member of the group, nor of the dealer.
#[derive(Clone, Copy, Debug, PartialEq, Eq)]
pub struct NotAMember;

impl<'a> Book<'a> {
    /// A book with no entry, over a lent table, in the hands of the dealer. The table stays as it is.
    pub fn over(entries: &'a mut [Entry], group: GroupSize) -> Book<'a>
        ensures { result ≡ book_over entries.entry group }
    {
        Book {
            owner: 0,
            group,
            count: 0,
            entries,
        }
    }

    /// Makes it the attestor of another member, or of the dealer; one that is neither is refused. All that it accepted it
    /// accepts.
    pub fn hand_to(&mut self, member: u8) -> Result<(), NotAMember>
        ensures answer { is_ok result ≡ nat_le member self.old.group.number }
        ensures state { self.new ≡ (if is_ok result then handed_to member self.old else self.old) }
        ensures accepted { book_accepts self.new ≡ book_accepts self.old }
    {
        if member > self.group.number() {
            return Err(NotAMember);
        }
        self.owner = member;
        Ok(())
    }

    // Whether there is an entry at the place, of this signer and these words.
    fn holds_at(&self, place: u32, signer: u8, words: &[u8]) -> bool
        ensures { result ≡ holds_at (entered self.now) place signer words.now }
    {
        let entered = (self.count as usize).min(self.entries.len());
        self.entries[..entered]
            .get(place as usize)
            .is_some_and(|entry| entry.holds(signer, words))
    }
}

impl Attestor for Book<'_> {
    const TAG_PER_MEMBER: usize = 0;

    const TAG_FIXED: usize = 4;

    ghost per_member = { 0 };

    ghost fixed = { 4 };

    ghost owner = { λ b. b.owner };

    ghost members = { λ b. b.group.number };

    ghost accepts = { book_accepts };

    ghost signs = { book_signs };

    ghost tag_of = { book_tag };

    ghost signed = { book_signed };

    ghost laws = { book_laws };

    // an impl of a type with a lifetime writes the clauses of a function without `self` out
    fn width(n: u8) -> usize
        ensures value { result ≡ 0 * n + 4 }
        ensures within { result ≤ 16 * max 4 n }
    {
        Self::TAG_PER_MEMBER * n as usize + Self::TAG_FIXED
    }

    fn owner_number(&self) -> u8 {
        self.owner
    }

    fn group_size(&self) -> u8 {
        self.group.number()
    }

    fn accept(&self, signer: u8, words: &[u8], tag: &[u8]) -> bool {
        let Ok(place) = tag.try_into() else {
            return false;
        };
        self.holds_at(u32::from_be_bytes(place), signer, words)
    }

    fn sign(&mut self, words: &[u8], tag: &mut [u8; TAG_ROOM]) -> Result<usize, WillNotSign> {
        let place = self.count;
        // longer bytes are no words
        if words.len() > WORDS_MOST || place >= BOOK_MOST || place as usize >= self.entries.len() {
            return Err(WillNotSign);
        }
        tag[0..4].copy_from_slice(&place.to_be_bytes());
        self.entries[place as usize] = Entry::of(self.owner, words);
        self.count = place + 1;
        Ok(4)
    }
}
