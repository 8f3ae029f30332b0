// One tally for every kind of item: a place for each member, and a threshold of items that are alike.
#![tactic(auto)]

mod laws;
mod likeness;
mod numbers;
mod places;
#[cfg(test)]
mod tests;

pub use laws::{tallies_are_lawful, third_reaches};
pub use likeness::Item;
pub use numbers::{ByNumber, Numbered};
pub use places::{Alike, Refused, Tally, clear, count_alike, judge, kept_alike};
