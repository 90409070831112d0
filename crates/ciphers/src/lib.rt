// The ciphers of document 01 as the machine's meaning asks for them: definitions and laws only, no code.
#![tactic(auto)]
