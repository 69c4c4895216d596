// What a contract says of a lent reference: definitions alone. See specs/Moments.
#![tactic(auto)]
