// An entry of the book: a signer and words.
ghost use Rattle.std.specs.Prelude.{◌≡◌, ◌≤◌, length};
ghost use Rattle.attest.specs.Limits.{words_most};
ghost use Rattle.attest.specs.Entry.{blank, entry_of, entry_holds};

use crate::attestor::WORDS_MOST;

/// Who signed, and what: the first `len` bytes of `words`.
#[derive(Clone, Copy)]
pub struct Entry {
    signer: u8,
    len: u8,
    words: [u8; WORDS_MOST],
}

impl Entry {
    /// An entry to fill a new book's table with.
    pub fn blank() -> Entry
        ensures { result ≡ blank }
    {
        Entry {
            signer: 0,
            len: 0,
            words: [0; WORDS_MOST],
        }
    }

    pub(crate) fn of(signer: u8, words: &[u8]) -> Entry
        requires { length words.now ≤ words_most }
        ensures { result ≡ entry_of signer words.now }
    {
        let len = words.len();
        let mut held = [0; WORDS_MOST];
        held[0..len].copy_from_slice(words);
        Entry {
            signer,
            len: len as u8,
            words: held,
        }
    }

    /// Whether it is of this signer and these words.
    pub(crate) fn holds(&self, signer: u8, words: &[u8]) -> bool
        ensures { result ≡ entry_holds self.now signer words.now }
    {
        let len = (self.len as usize).min(WORDS_MOST);
        self.signer == signer && words == &self.words[0..len]
    }
}
