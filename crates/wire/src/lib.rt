// The wire: certificates and the seven messages, read and written.
#![tactic(auto)]

pub mod certificate;
pub mod entries;
pub mod examples;
pub mod form;
pub mod higher;
pub mod kind;
pub mod laws;
pub mod limits;
pub mod message;
pub mod parts;
pub mod reader;
pub mod words;
pub mod writer;
