// What the machine asks of its memory, and the two memories that can answer: definitions and laws only, no code.
#![tactic(auto)]
