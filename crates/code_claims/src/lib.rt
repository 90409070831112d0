// Demand 3 at the code: what the contracts of the host's calls give over any sequence of calls. The statement and its
// proof only, no code.
#![tactic(auto)]
