// What the calls give, as numbers and words for callers in C and Rust; and the boundary's number.
#![tactic(auto)]

mod members; // members.rt: a member's answer
mod tokens; // tokens.rt: a record, and the payload's length

ghost use Rattle.std.specs.Prelude.{◌≡◌};
ghost use Rattle.jws_words.specs.Words.{boundary};

pub use members::{Answer, answer_of};
pub use tokens::{payload_word, words_of};

const BOUNDARY: u32 = 1;

// The boundary's number: JWS_BOUNDARY of the include/jws.h that the archive goes with.
// Rules out the number of another boundary, and a number that isn't always the same.
pub fn boundary() -> u32
    ensures { result ≡ boundary }
{
    BOUNDARY
}
