// Demand 3, the theorem that the customer quotes: a cache may change the counts and nothing else. Statements and
// proofs only, no code.
#![tactic(auto)]
