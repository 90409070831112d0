// Parts of lists, bytes, and numbers laid out as bytes: definitions and laws only, no code.
#![tactic(auto)]
