// GF(2^8) and the substitution of a byte (FIPS 197): definitions and laws, and no code.
#![tactic(auto)]
