// Why a member's moves keep the voting rules: theorems about every history of moves, over any type of blocks. Each is the contract of a
// function; docs/PROOF.md tells the argument.
#![tactic(auto)]

ghost use Rattle.safety.specs.Theorems.{OneChain};
ghost use Rattle.history.specs.Theorems.{
  HistoryKeepsTheRules,
  ByMoves,
  MovesKeepTheRules,
  SomeRunMoves,
};

// the votes of every history of moves keep the rules
#[tactic(auto, using(crate::proofs::Histories::history_keeps_the_rules_lem))]
pub fn history_keeps_the_rules<Block>() -> u8
    ensures { HistoryKeepsTheRules Block }
{
    0
}

// where each honest member makes only its moves, the run is lawful
#[tactic(auto, using(crate::proofs::Histories::moves_keep_the_rules_lem))]
pub fn moves_keep_the_rules<Block>() -> u8
    ensures { MovesKeepTheRules Block }
{
    0
}

// and so of two committed blocks one extends the other
#[tactic(auto, using(crate::proofs::Histories::moves_keep_one_chain_lem))]
pub fn moves_keep_one_chain<Block>() -> u8
    ensures { OneChain Block ByMoves }
{
    0
}

// the assumptions can be met
#[tactic(auto, using(crate::proofs::Example::some_run_moves_lem))]
pub fn some_run_moves() -> u8
    ensures { SomeRunMoves }
{
    0
}
