// A compact token's segments (RFC 7515 section 7.1): where its periods stand, decoding them, and the signature compared with a MAC.
#![tactic(auto)]

mod periods; // periods.rt: where a token's periods stand
mod equal; // equal.rt: whether a signature is a MAC
mod opening; // opening.rt: a token's three segments decoded

pub use equal::is_mac;
pub use opening::{Opened, Segments, open_segments};
pub use periods::split;
