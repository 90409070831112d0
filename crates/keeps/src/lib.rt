// What every request leaves in order, whatever was lent, and how much it may count: definitions and proofs only, no
// code.
#![tactic(auto)]
