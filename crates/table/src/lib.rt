// The block table of a member: a lent slice of block records, filled in place. Every contents of the slice is a tree whose root is place 0.
#![tactic(auto)]

pub mod ancestry;
pub mod committed;
pub mod held;
pub mod laws;
pub mod places;
#[cfg(test)]
mod tests;
