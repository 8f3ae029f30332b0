// The items of the four tallies. A tag takes the room of the longest; how much of it is used the tag's width says.
ghost use Rattle.collect.specs.Items.{vote_above, vote_alike, kept};
ghost use Rattle.std.specs.Prelude.{◌≡◌, true};
ghost use Rattle.std.proofs.Common.{subst, arith};
ghost use Rattle.std.proofs.lemmas.Bool.Decides.{nat_tests};
ghost use Rattle.blocks.specs.Ranks.{less_rank};
ghost use Rattle.blocks.specs.Sameness.{same_statement};
ghost use Rattle.blocks.specs.Statements.{rank_of};
ghost use Rattle.blocks.proofs.Ordered.{ordered};
ghost use Rattle.blocks.proofs.SameStatements.{same_itself, same_equal};
ghost use Rattle.tally.specs.ByKey.{by_key};

use attest::attestor::TAG_ROOM;
use blocks::layout::put;
use blocks::rank::View;
use blocks::statement::Statement;
use tally::{ByNumber, Item};

// A vote, by its signer's place. Votes are alike if they say the same, and rank as the block that they are for.
#[derive(Clone, Copy)]
pub struct KeptVote {
    pub statement: Statement,
    pub tag: [u8; TAG_ROOM],
}

// A timeout, by its signer's place.
#[derive(Clone, Copy)]
pub struct KeptTimeout {
    pub view: View,
    pub tag: [u8; TAG_ROOM],
}

// A fallback chain of three certified blocks, by its proposer's place.
#[derive(Clone, Copy)]
pub struct Finished {
    pub view: View,
}

// A share of a view's coin, by its member's place.
#[derive(Clone, Copy)]
pub struct KeptShare {
    pub view: View,
    pub value: u16,
    pub tag: [u8; TAG_ROOM],
}

impl Item for KeptVote {
    ghost above = { vote_above };

    ghost alike = { vote_alike };

    ghost likeness = { by_key
        (λ x. x.statement)
        (λ a b. less_rank (rank_of b) (rank_of a))
        same_statement
        (λ a b. (same_equal a b, λ e. subst (λ s. same_statement a s ≡ true) e (same_itself a)))
        (λ a. ordered.irreflexive (rank_of a))
        (λ a b c ab bc. ordered.transitive (rank_of c) (rank_of b) (rank_of a) bc ab)
        (λ a b c ac bc. Prim.grind (arith, nat_tests)) };

    fn ranks_above(&self, other: &KeptVote) -> bool {
        other.statement.rank() < self.statement.rank()
    }

    fn is_like(&self, other: &KeptVote) -> bool {
        self.statement.same(&other.statement)
    }
}

impl ByNumber for KeptTimeout {
    ghost number = { λ x. x.view.0 };

    fn number(&self) -> u32 {
        self.view.0
    }
}

impl ByNumber for Finished {
    ghost number = { λ x. x.view.0 };

    fn number(&self) -> u32 {
        self.view.0
    }
}

impl ByNumber for KeptShare {
    ghost number = { λ x. x.view.0 };

    fn number(&self) -> u32 {
        self.view.0
    }
}

// A tag at the start of the room of the longest; one that is longer is not kept.
pub fn kept(tag: &[u8]) -> [u8; TAG_ROOM]
    ensures { result ≡ kept tag.now }
{
    let mut room = [0; TAG_ROOM];
    put(&mut room, 0, tag);
    room
}
