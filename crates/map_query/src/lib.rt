// Queries of two half-open maps: the functions that `hourledger_c` exports. Each lends its maps to a function of `query`, and tells its answer in numbers.
// Each stands in a file of its own, so that a wrong line can be tried.
#![tactic(auto)]

pub mod instant;
pub mod instant_unchecked;
pub mod ranges;
pub mod ranges_unchecked;
