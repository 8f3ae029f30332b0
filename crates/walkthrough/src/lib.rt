// One lot's way through the ledger, from a payload to messages, as text for a reader.
#![tactic(auto)]

pub mod chapters;
pub mod fault;
mod fields;
pub mod hex;
pub mod judging;
pub mod lot;
pub mod lot_block;
mod sample;
mod samples;
mod signing;
