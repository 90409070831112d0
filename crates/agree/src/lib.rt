// The machine without a cache and the machine with one answer alike: a relation and its proofs only, no code.
#![tactic(auto)]
