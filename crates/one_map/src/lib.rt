// The one well-formed map of each operation, and what histories of events leave: definitions and laws, no code.
#![tactic(auto)]
