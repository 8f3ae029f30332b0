// The table by place: lookup by id, reading a place and its parent, and holding a block.
ghost use Rattle.std.specs.Prelude.{◌≡◌, ◌<◌, length, if◌then◌else◌, nat_lt, slice_set};
ghost use Rattle.table.specs.Places.{at, lookup, up};

use super::held::{GENESIS, Held};

// The first of the held places whose block has the id.
pub fn find(table: &[Held], held: usize, id: &[u8; 32]) -> Option<usize>
    ensures { result ≡ lookup table.now held id.now }
{
    let places = &table[..held.min(table.len())];
    places.iter().position(|block| block.has_id(id))
}

// The block at a place; genesis where there is no such place.
pub fn block_at(table: &[Held], i: usize) -> &Held
    ensures { result.now ≡ at table.now i }
{
    table.get(i).unwrap_or(&GENESIS)
}

// The place of the parent: a lower place, or else that of genesis.
pub fn parent_of(table: &[Held], i: usize) -> usize
    ensures place { result ≡ up table.now i }
    ensures lower { 0 < i → result < i }
{
    let parent = block_at(table, i).parent;
    if parent < i { parent } else { 0 }
}

// Puts a block into a place, if there is such a place.
pub fn hold(table: &mut [Held], place: usize, block: Held) -> bool
    ensures answer { result ≡ nat_lt place (length table.old) }
    ensures held { table.new ≡ (if result then slice_set table.old place block else table.old) }
{
    let there = place < table.len();
    if there {
        table[place] = block;
    }
    there
}
