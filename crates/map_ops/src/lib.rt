// The functions of a map of either kind: the check of the lent map, and then the unchecked door. Any map is taken.
#![tactic(auto)]

pub mod change;
pub mod find;
pub mod list;
