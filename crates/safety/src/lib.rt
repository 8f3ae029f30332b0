// Why the voting rules give one chain: theorems about every run whose honest members keep the rules, over any type of blocks. Each is the
// contract of a function; docs/PROOF.md tells the argument.
#![tactic(auto)]

ghost use Rattle.safety.specs.Rules.{Lawful};
ghost use Rattle.safety.specs.Theorems.{
  QuorumsMeet,
  CountsAQuorum,
  CommonVoter,
  OneRegularPerRound,
  OneFallbackPerHeight,
  CommitsAreFinal,
  OneChain,
  OneCommitPerRound,
  SomeRunCommits,
};

// two quorums have an honest member in common
#[tactic(auto, using(crate::proofs::Quorums::quorums_meet_lem))]
pub fn quorums_meet() -> u8
    ensures { QuorumsMeet }
{
    0
}

// how many members are a quorum where votes are counted, of 3 * faults + 1
#[tactic(auto, using(crate::proofs::Counts::counts_a_quorum))]
pub fn counted_quorum(faults: u8) -> u16
    ensures { CountsAQuorum faults result }
{
    2 * (faults as u16) + 1
}

// two blocks with certificates have an honest voter in common
#[tactic(auto, using(crate::proofs::Voters::common_voter_lem))]
pub fn common_voter<Block>() -> u8
    ensures { CommonVoter Block Lawful }
{
    0
}

// certified regular blocks of one round are equal, across all views
pub fn one_regular_per_round<Block>() -> u8
    ensures { OneRegularPerRound Block Lawful }
{
    0
}

// certified fallback blocks of one view, proposer and height are equal
pub fn one_fallback_per_height<Block>() -> u8
    ensures { OneFallbackPerHeight Block Lawful }
{
    0
}

// every official block that ranks no lower than a directly committed one extends it
#[tactic(auto, using(crate::proofs::Commits::commits_are_final_lem))]
pub fn commits_are_final<Block>() -> u8
    ensures { CommitsAreFinal Block Lawful }
{
    0
}

// of two committed blocks one extends the other
#[tactic(auto, using(crate::proofs::Commits::one_chain_lem))]
pub fn one_chain<Block>() -> u8
    ensures { OneChain Block Lawful }
{
    0
}

// committed blocks of one round are equal
pub fn one_commit_per_round<Block>() -> u8
    ensures { OneCommitPerRound Block Lawful }
{
    0
}

// the assumptions can be met, with commits in two views
#[tactic(auto, using(crate::proofs::Example::some_run_commits_lem))]
pub fn some_run_commits() -> u8
    ensures { SomeRunCommits }
{
    0
}
