// What every instruction and every call of the host keeps, and how much it may count: definitions and proofs only, no
// code.
#![tactic(auto)]
