// The parts of a byte form: numbers as bytes, and the head and one range of document 01's layout.
#![tactic(auto)]

pub mod number;
pub mod rm01;
