// What is committed, and the entries of the ledger.
ghost use Rattle.std.specs.Prelude.{◌≡◌};
ghost use Rattle.table.specs.Committed.{commit, committed_count, entry_place, one_view, onward};

use super::ancestry::{ancestor, extends};
use super::held::Held;
use super::places::{block_at, parent_of};
use blocks::rank::Round;

// Whether the block, its parent and its grandparent are of one view.
pub fn one_view(table: &[Held], i: usize) -> bool
    ensures { result ≡ one_view table.now i }
{
    let parent = parent_of(table, i);
    let view = block_at(table, i).head.view;
    view == block_at(table, parent).head.view
        && view == block_at(table, parent_of(table, parent)).head.view
}

// The last committed place once the block at place i is to commit; none is a fork.
fn onward(table: &[Held], last: usize, i: usize) -> Option<usize>
    ensures { result ≡ onward table.now last i }
{
    if extends(table, i, last) {
        Some(i)
    } else if extends(table, last, i) {
        Some(last)
    } else {
        None
    }
}

// The last committed place once a certificate of the block at place i is seen; none is a fork.
pub fn commit(table: &[Held], last: usize, i: usize) -> Option<usize>
    ensures { result ≡ commit table.now last i }
{
    if one_view(table, i) {
        onward(table, last, parent_of(table, parent_of(table, i)))
    } else {
        Some(last)
    }
}

// How many blocks are committed.
pub fn committed_count(table: &[Held], last: usize) -> u32
    ensures { result ≡ committed_count table.now last }
{
    block_at(table, last).head.round.0
}

// The place of the k-th committed block, counted from 1.
pub fn entry(table: &[Held], last: usize, k: u32) -> Option<usize>
    ensures { result ≡ entry_place table.now last k }
{
    if k == 0 || k > committed_count(table, last) {
        None
    } else {
        ancestor(table, last, Round(k))
    }
}
