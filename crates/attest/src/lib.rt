// Attestors: who signed which words. The trait with its meaning, and two implementations of it.
#![tactic(auto)]

pub mod attestor;
pub mod book;
mod compare;
pub mod entry;
pub mod group;
pub mod pair_keys;
pub mod parts;
pub mod signings;
