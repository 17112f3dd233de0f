// SHA-2 (FIPS 180-4) as definitions and theorems, in specs/ and proofs/. The crates `sha256_compression` and `sha256` compute SHA-256.
#![tactic(auto)]
