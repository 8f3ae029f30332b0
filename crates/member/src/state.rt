// A member's state.
use crate::rows::Row;
use crate::types::Stage;
use blocks::rank::{Kind, Rank, Round, View};
use blocks::statement::Statement;

// What is fixed at set up: the own number, the group's size and how many places the table has.
#[derive(Clone, Copy)]
pub struct Site {
    pub own: u8,
    pub members: u8,
    pub places: usize,
}

// What seeing a certificate changes: the round, the lock, the highest certificate seen and the place of the last committed block.
#[derive(Clone, Copy)]
pub struct Chain {
    pub round: Round,
    pub lock: Rank,
    pub high: Statement,
    pub last: usize,
}

// The view, the stage in it, and the voted round.
#[derive(Clone, Copy)]
pub struct Phase {
    pub view: View,
    pub stage: Stage,
    pub voted: Round,
}

// What was proposed last: a round of a view's regular chain, or a height of its fallback chain. Compared from the left.
#[derive(Clone, Copy, PartialEq, Eq, PartialOrd, Ord)]
pub struct Proposed {
    pub view: View,
    pub kind: Kind,
    pub step: u32,
}

#[derive(Clone, Copy)]
pub struct Member {
    pub site: Site,
    // how many places of the table are held
    pub held: usize,
    pub chain: Chain,
    pub phase: Phase,
    pub proposed: Proposed,
    // who won each view whose coin has fallen
    pub winners: [Option<u8>; 1024],
    // a row for each member
    pub rows: [Row; 13],
}
