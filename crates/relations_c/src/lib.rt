// What C and Rust call of module 1: each function is that of `relations`, with the same contract.
#![tactic(auto)]

pub mod half_open;
pub mod inclusive;
