// One member of the group: its state, its rules and its calls.
#![tactic(auto)]

pub mod entry;
pub mod exit;
pub mod memory;
pub mod plan;
pub mod propose;
pub mod rows;
pub mod see;
pub mod send;
pub mod set_up;
pub mod sheet;
pub mod shelf;
pub mod sizes;
pub mod state;
pub mod timer;
pub mod types;
pub mod votes;
