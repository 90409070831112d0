// AES-128 and its chains as FIPS 197 and SP 800-38A define them: definitions and laws, and no code.
#![tactic(auto)]
