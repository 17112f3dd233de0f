// The functions exported to C and Rust; include/jws.h declares them. A slice passes as its pointer and its length.
#![tactic(auto)]

mod members; // members.rt: the member reader
mod tokens; // tokens.rt: verifying, the payload and signing

ghost use Rattle.std.specs.Prelude.{◌≡◌};
ghost use Rattle.jws_words.specs.Words.{boundary};

pub use members::jws_member;
pub use tokens::{jws_payload, jws_sign, jws_verify};

// The boundary's number: JWS_BOUNDARY of the include/jws.h that the archive goes with.
// Rules out the number of another boundary, and a number that isn't always the same.
#[unsafe(no_mangle)]
pub extern "C" fn jws_boundary() -> u32
    ensures { result ≡ boundary }
{
    jws_words::boundary()
}
