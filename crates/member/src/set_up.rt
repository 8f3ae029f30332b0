// Setting up a member.
ghost use Rattle.std.specs.Prelude.{◌≡◌, length, is_ok, if◌then◌else◌};
ghost use Rattle.member.specs.Memories.{lengths_in_mut, SameParts};
ghost use Rattle.member.specs.SetUp.{fresh, emptied, prepared_table, prepared_shelf, set_up};

use crate::memory::MemoryMut;
use crate::rows::Row;
use crate::shelf::shelve;
use crate::state::*;
use crate::types::{Refusal, Stage};
use blocks::rank::{Kind, Round, View};
use blocks::statement::Statement;
use table::held::Held;
use tally::clear;

// Genesis' certificate.
const GENESIS_CERTIFICATE: [u8; 44] = [0; 44];

impl Member {
    // A member that has seen nothing but genesis.
    fn fresh(site: Site) -> Member
        ensures { result ≡ fresh site }
    {
        let high = Statement::genesis();
        Member {
            site,
            held: 1,
            chain: Chain {
                round: Round(1),
                lock: high.rank(),
                high,
                last: 0,
            },
            phase: Phase {
                view: View(0),
                stage: Stage::Steady,
                voted: Round(0),
            },
            proposed: Proposed {
                view: View(0),
                kind: Kind::Regular,
                step: 0,
            },
            winners: [None; 1024],
            rows: [Row::empty(); 13],
        }
    }

    // A fresh member: the own number of n, and the memory that every later call is lent. It empties the tallies, holds genesis
    // at place 0 of the table and puts its certificate at place 0 of the shelf; all else stays.
    pub fn set_up(own: u8, n: u8, memory: &mut MemoryMut<'_>, out: &[u8]) -> Result<Member, Refusal>
        ensures answer { result ≡ set_up own n (lengths_in_mut memory.old (length out.now)) }
        ensures votes { memory.new.votes.now ≡ (if is_ok result then emptied memory.old.votes.now else memory.old.votes.now) }
        ensures timeouts { memory.new.timeouts.now ≡ (if is_ok result then emptied memory.old.timeouts.now else memory.old.timeouts.now) }
        ensures finished { memory.new.finished.now ≡ (if is_ok result then emptied memory.old.finished.now else memory.old.finished.now) }
        ensures shares { memory.new.shares.now ≡ (if is_ok result then emptied memory.old.shares.now else memory.old.shares.now) }
        ensures table { memory.new.table.now ≡ (if is_ok result then prepared_table memory.old.table.now else memory.old.table.now) }
        ensures shelf { memory.new.shelf.now ≡ (if is_ok result then prepared_shelf memory.old.shelf.now else memory.old.shelf.now) }
        ensures parts { SameParts memory.old memory.new }
    {
        let lengths = memory.shared().lengths(out.len());
        let site = Site {
            own,
            members: n,
            places: lengths.table,
        };
        if !lengths.fit(&site) {
            return Err(Refusal::Sizes);
        }
        clear(memory.votes);
        clear(memory.timeouts);
        clear(memory.finished);
        clear(memory.shares);
        memory.table[0] = Held::genesis();
        shelve(memory.shelf, 0, &GENESIS_CERTIFICATE);
        Ok(Member::fresh(site))
    }
}
