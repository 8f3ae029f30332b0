// The limits of n, of the own number and of what is lent.
ghost use Rattle.std.specs.Prelude.{◌≡◌, true};
ghost use Rattle.member.specs.Sizes.{group_size, table_size, tallies_fit, buffers_fit, sized, Sized};

use crate::state::Site;
use coin::is_member;
use wire::limits::OUTGOING_BYTES;

// The fewest and the most places of a block table.
pub const TABLE_LEAST: usize = 2;

pub const TABLE_MOST: usize = 4_096;

// The lengths of what a call is lent.
#[derive(Clone, Copy)]
pub struct Lengths {
    pub votes: usize,
    pub timeouts: usize,
    pub finished: usize,
    pub shares: usize,
    pub table: usize,
    pub shelf: usize,
    pub out: usize,
}

fn group_size(n: u8) -> bool
    ensures { result ≡ group_size n }
{
    matches!(n, 4 | 7 | 10 | 13)
}

fn table_size(places: usize) -> bool
    ensures { result ≡ table_size places }
{
    (TABLE_LEAST..=TABLE_MOST).contains(&places)
}

impl Lengths {
    fn tallies_fit(&self, n: usize) -> bool
        ensures { result ≡ tallies_fit n self.now }
    {
        self.votes == n && self.timeouts == n && self.finished == n && self.shares == n
    }

    fn buffers_fit(&self, n: u8) -> bool
        ensures { result ≡ buffers_fit n self.now }
    {
        self.shelf == usize::from(n) + 1 && self.out == OUTGOING_BYTES
    }

    // Whether n, the own number and what is lent are within their limits, and the table as long as at set up.
    pub(crate) fn fit(&self, site: &Site) -> bool
        ensures answer { result ≡ sized site.now self.now }
        ensures parts { result ≡ true → Sized site.now self.now }
    {
        let n = site.members;
        group_size(n)
            && is_member(n, site.own)
            && self.tallies_fit(usize::from(n))
            && (table_size(self.table) && self.table == site.places)
            && self.buffers_fit(n)
    }
}
