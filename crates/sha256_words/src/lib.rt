// SHA-256's functions on words (FIPS 180-4, section 4.1.2), and a later word of a schedule. The functions of a round are written in two ways:
// `words` as the standard has them, with short chains of operations, for a machine that carries out several at once; `fewer` with fewer
// operations.
#![tactic(auto)]

mod fewer; // fewer.rt: Maj and the big sigmas with fewer operations
mod words; // words.rt: the functions as the standard has them

pub use fewer::{maj_in_pairs, nested_sigma0, nested_sigma1};
pub use words::{big_sigma0, big_sigma1, ch, later_word, maj, small_sigma0, small_sigma1};
