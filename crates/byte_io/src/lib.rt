// The byte form of a map of half-open ranges, written into lent bytes and read from them.
#![tactic(auto)]

pub mod read;
pub mod write;
