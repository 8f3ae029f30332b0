// Blocks, by what is said of them: views, rounds, ranks, statements, heads and ids.
#![tactic(auto)]

ghost use Rattle.blocks.specs.Examples.{Examples};
ghost use Rattle.blocks.specs.Ranks.{RanksOrdered};
ghost use Rattle.blocks.specs.RoundTrips.{HeadsRoundTrip, StatementsRoundTrip};

pub mod head;
pub mod layout;
pub mod limits;
pub mod rank;
pub mod statement;
#[cfg(test)]
mod tests;

// What is written reads back as the same fields, and what is read writes back as the same bytes.
pub fn round_trips() -> u8
    ensures statements { StatementsRoundTrip }
    ensures heads { HeadsRoundTrip }
{
    0
}

// Ranks are in one order: by view, then kind, then round.
pub fn ranks_ordered() -> u8
    ensures { RanksOrdered }
{
    0
}

// The worked examples hold of the definitions.
pub fn examples_stand() -> u8
    ensures { Examples }
{
    0
}
