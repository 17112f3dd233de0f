// Strict base64url without padding (RFC 4648 section 5) as definitions and theorems: see specs/ and proofs/. The crates `base64url_decoding` and
// `base64url_encoding` compute them. This crate has no code.
#![tactic(auto)]
