// SHA-256's compression of one block (FIPS 180-4, sections 4, 5.2 and 6.2.2). The crate `sha256` pads and hashes a message with it.
#![tactic(auto)]

mod constants; // constants.rt: the round constants
mod rounds; // rounds.rt: the rounds, and the compression
mod schedule; // schedule.rt: the message schedule

pub use constants::Constants;
pub use rounds::{RoundSums, added, compress, round};
