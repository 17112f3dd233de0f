// The key table as definitions and theorems, in specs/ and proofs/: when its bytes are in order, the list of keys that they mean, and which key an id
// names. The crates `keytable_areas`, `keytable_check` and `keytable` compute them.
#![tactic(auto)]
