// What the customer quotes: demand 3 and the marked cases for the board and the ciphers of document 01. Statements and
// their proofs only, no code.
#![tactic(auto)]
