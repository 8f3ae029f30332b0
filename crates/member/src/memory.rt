// The memory that a member's calls are lent.
ghost use Rattle.std.specs.Prelude.{◌≡◌};
ghost use Rattle.member.specs.Memories.{lengths_in};

use crate::sizes::Lengths;
use collect::items::*;
use table::held::Held;
use wire::limits::CERTIFICATE_MOST;

// What a call only reads: the places of the four tallies, the block table and the shelf of certificates.
#[derive(Clone, Copy)]
pub struct Memory<'a> {
    pub votes: &'a [Option<KeptVote>],
    pub timeouts: &'a [Option<KeptTimeout>],
    pub finished: &'a [Option<Finished>],
    pub shares: &'a [Option<KeptShare>],
    pub table: &'a [Held],
    pub shelf: &'a [[u8; CERTIFICATE_MOST]],
}

impl Memory<'_> {
    // How long each part is, beside an outgoing buffer of this length.
    pub(crate) fn lengths(&self, out: usize) -> Lengths
        ensures { result ≡ lengths_in self.now out }
    {
        Lengths {
            votes: self.votes.len(),
            timeouts: self.timeouts.len(),
            finished: self.finished.len(),
            shares: self.shares.len(),
            table: self.table.len(),
            shelf: self.shelf.len(),
            out,
        }
    }
}

// The same parts, which a call may change.
#[derive(Drop)]
pub struct MemoryMut<'a> {
    pub votes: &'a mut [Option<KeptVote>],
    pub timeouts: &'a mut [Option<KeptTimeout>],
    pub finished: &'a mut [Option<Finished>],
    pub shares: &'a mut [Option<KeptShare>],
    pub table: &'a mut [Held],
    pub shelf: &'a mut [[u8; CERTIFICATE_MOST]],
}

impl MemoryMut<'_> {
    // The same memory, to be read.
    pub fn shared(&self) -> Memory<'_>
        ensures votes { result.votes.now ≡ self.now.votes.now }
        ensures timeouts { result.timeouts.now ≡ self.now.timeouts.now }
        ensures finished { result.finished.now ≡ self.now.finished.now }
        ensures shares { result.shares.now ≡ self.now.shares.now }
        ensures table { result.table.now ≡ self.now.table.now }
        ensures shelf { result.shelf.now ≡ self.now.shelf.now }
    {
        Memory {
            votes: &*self.votes,
            timeouts: &*self.timeouts,
            finished: &*self.finished,
            shares: &*self.shares,
            table: &*self.table,
            shelf: &*self.shelf,
        }
    }
}
