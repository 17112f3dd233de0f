// Compact tokens (RFC 7515 section 7.1) with HS256: what verifying and signing answer. The definitions stand in specs/ and the promises in proofs/, the functions in crates `jws`, `jws_payload` and `jws_signing`.
#![tactic(auto)]

use jose_rules::Choice;

// The longest token.
pub const TOKEN_MOST: usize = 32768;

// What a token that is accepted holds: the lengths of its header and payload, and what its header decides.
#[derive(Clone, Copy)]
pub struct Record {
    pub header_length: usize,
    pub payload_length: usize,
    pub choice: Choice,
}
