// The third chapter: the book, which the members of one process share.
use super::verdict;
use crate::fault::Fault;
use crate::hex::Hex;
use crate::sample::{block, group};
use crate::signing::sign_as;
use attest::attestor::Attestor;
use attest::book::Book;
use attest::entry::Entry;
use std::alloc::Global;
use wire::words::vote_words;

// The entries of the walk's book: one for each vote of a quorum.
const ENTRIES: usize = 3;

pub fn chapter(heap: Global) -> Result<String, Fault> {
    let words = vote_words(&block()?.statement());
    let mut table = [Entry::blank(); ENTRIES];
    let mut book = Book::over(&mut table, group()?);
    let mut text = String::new(heap);
    writeln!(text, "3. Three members vote in a book of {ENTRIES} entries")?;
    for member in 1..4 {
        let tag = sign_as(&mut book, member, &words)?;
        let verdict = verdict(book.accept(member, &words, &tag));
        writeln!(
            text,
            "  member {member} signs: tag {}, {verdict}",
            Hex(&tag)
        )?;
    }
    if sign_as(&mut book, 4, &words).is_ok() {
        return Err(Fault::Step);
    }
    writeln!(
        text,
        "  place 0 as member 2's tag: {}
  place 3, which has no entry: {}
  member 4 is not signed for: the book is full",
        verdict(book.accept(2, &words, &[0, 0, 0, 0])),
        verdict(book.accept(4, &words, &[0, 0, 0, 3]))
    )?;
    Ok(text)
}
