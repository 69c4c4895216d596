// THE TEXT of a query: which bytes are one, and the table that they are read into. From document 01, Query.
// Mod cursor: where the reader is, and how many marks are open there. Mod truth: the table. Mod reader: the functions that read, in a cycle.
#![tactic(auto)]

pub mod cursor;
pub mod reader;
pub mod truth;
