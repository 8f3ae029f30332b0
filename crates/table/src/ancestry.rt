// The walk along parents.
ghost use Rattle.std.specs.Prelude.{◌≡◌};
ghost use Rattle.std.specs.Iterator.{YieldsFirst, item_count};
ghost use Rattle.table.specs.Ancestry.{ancestor, extends, places_left, way_up};

use super::held::Held;
use super::places::{block_at, parent_of};
use blocks::rank::Round;

// The places on the way up to genesis, which comes last.
#[derive(Drop)]
struct Ancestors<'a> {
    table: &'a [Held],
    next: Option<usize>,
}

impl<'a> Ancestors<'a> {
    // The block at place a and its ancestors.
    fn of(table: &'a [Held], a: usize) -> Ancestors<'a>
        ensures { places_left result ≡ way_up table.now a }
    {
        Ancestors {
            table,
            next: Some(a),
        }
    }
}

impl<'a> Iterator for Ancestors<'a> {
    type Item = usize;

    ghost next_gives = { YieldsFirst places_left };

    ghost remaining = { item_count places_left };

    fn next(&mut self) -> Option<usize> {
        let at = self.next?;
        self.next = if at == 0 {
            None
        } else {
            Some(parent_of(self.table, at))
        };
        Some(at)
    }
}

// Whether the block at place a extends the one at place b. Parents stand lower, so b is the first on the way up that is not above b.
pub fn extends(table: &[Held], a: usize, b: usize) -> bool
    ensures { result ≡ extends table.now a b }
{
    Ancestors::of(table, a).find(|&at| at <= b) == Some(b)
}

// The place of the first block of the round on the way up from place a.
pub fn ancestor(table: &[Held], a: usize, round: Round) -> Option<usize>
    ensures { result ≡ ancestor table.now a round.0 }
{
    Ancestors::of(table, a).find(|&at| block_at(table, at).head.round == round)
}
