// What a member's four tallies keep, and the certificates that are built of it.
#![tactic(auto)]

pub mod build;
pub mod items;
pub mod laws;
pub mod shares;
#[cfg(test)]
mod tests;
