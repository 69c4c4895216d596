// What C and Rust call, but for module 1 (`relations_c`): each function is that of the same name in the crate that it calls, with the same contract.
// include/hourledger.h declares them.
#![tactic(auto)]

pub mod days;
pub mod forms;
pub mod inclusive_maps;
pub mod inclusive_sets;
pub mod maps;
pub mod queries;
pub mod reports;
pub mod sets;
