// What the rules of a member come to, in the subject's words.
#![tactic(auto)]

ghost use Rattle.laws.specs.Examples.{Examples};
ghost use Rattle.laws.specs.Growing.{CommittedGrows};
ghost use Rattle.laws.specs.Official.{OnlyOfficial};
ghost use Rattle.laws.specs.Rising.{NeverFalls};
ghost use Rattle.laws.specs.Signing.{SignsOnlyDue};
ghost use Rattle.laws.specs.Unchanged.{RefusedChangesNothing};

use attest::attestor::Attestor;
use coin::Coin;

// The worked examples hold of the definitions that the calls' contracts cite.
pub fn examples_stand() -> u8
    ensures { Examples }
{
    0
}

// A refused call alters neither the member nor anything that it was lent.
pub fn refused_changes_nothing<A: Attestor, C: Coin>() -> u8
    ensures { RefusedChangesNothing A C A.Attestor C.Coin }
{
    0
}

// Over any calls, neither the view nor the voted round, the round, the lock, the highest certificate or what was proposed last falls, and noted
// winners stay noted.
#[tactic(auto, using(crate::proofs::Laws::never_falls))]
pub fn never_falls<A: Attestor, C: Coin>() -> u8
    ensures { NeverFalls A C A.Attestor C.Coin }
{
    0
}

// Only votes that are due are signed, and timeouts in stage steady.
#[tactic(auto, using(crate::proofs::Laws::signs_only_due_lem))]
pub fn signs_only_due<A: Attestor, C: Coin>() -> u8
    ensures { SignsOnlyDue A C A.Attestor C.Coin }
{
    0
}

// The round, the lock, the highest certificate and the last committed block change only by a certificate that is regular or endorsed.
#[tactic(auto, using(crate::proofs::Laws::only_official_lem))]
pub fn only_official<A: Attestor, C: Coin>() -> u8
    ensures { OnlyOfficial A C A.Attestor C.Coin }
{
    0
}

// From set up on, calls only add to the committed blocks, each of which names the one before as its parent.
#[tactic(auto, using(crate::proofs::Growth::committed_grows_lem))]
pub fn committed_grows<A: Attestor, C: Coin>() -> u8
    ensures { CommittedGrows A C A.Attestor C.Coin }
{
    0
}
