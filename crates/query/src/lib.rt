// QUERIES of two half-open maps: the true instants of a window, as maximal ranges (mod ranges), or whether one instant is among them (mod instant).
// Each has a door that takes any maps, and an unchecked one that requires sound maps.
// How it is done: what one map holds from a key on (mod seen), a walk along both (mod walk), and the ranges that it meets (mod written).
#![tactic(auto)]

pub mod formed;
pub mod inquiry;
pub mod instant;
pub mod ranges;
pub mod seen;
pub mod walk;
pub mod written;
