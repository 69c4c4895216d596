// What follows from the promises of the exported functions, said of these promises: definitions and theorems, no code.
#![tactic(auto)]
