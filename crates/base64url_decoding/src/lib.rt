// Decoding strict base64url without padding (RFC 4648 section 5): a segment's text to its bytes. The definitions and theorems stand in
// crate `base64url_rules`.
#![tactic(auto)]

ghost use Rattle.std.specs.Prelude.{◌≡◌, length};
ghost use Rattle.base64url_rules.specs.Base64url.{decoded_length};
ghost use Rattle.base64url_rules.specs.Outcome.{decoded_to, decoding};
ghost use Rattle.base64url_decoding.specs.Answers.{decoded};

mod groups; // groups.rt: a text into a buffer that has room for its bytes
mod fault; // fault.rt: why a text is refused

pub use base64url_words::Values;
pub use fault::first_outside;

// Why a text is not decoded: the place of the fault in one that is not strict; or a strict text whose bytes the buffer has no room for.
#[derive(Clone, Copy, Debug, PartialEq, Eq)]
pub enum DecodeError {
    Fault(usize),
    Short,
}

// How many bytes a text of this length stands for. Rules out four bytes for a group, and a byte more for a rest.
pub fn decoded_len(text: &[u8]) -> usize
    ensures { result ≡ decoded_length (length text.now) }
{
    text.len() / 4 * 3 + (text.len() % 4).saturating_sub(1)
}

// Decodes a text, and answers how many bytes it stands for. Strict, and the buffer has room: its bytes, and then what the buffer held before. Else every
// byte of the buffer is 0. Rules out a text with unused bits let through, and a refusal that leaves a byte behind.
pub fn decode(text: &[u8], out: &mut [u8]) -> Result<usize, DecodeError>
    ensures { decoded_to (decoded result) out.new ≡ decoding text.now out.old }
{
    decode_with(&Values::new(), text, out)
}

// The same, with a table that the caller has made once. Rules out a character outside the
// alphabet reported at the text's end, and Short where the text has a fault.
pub fn decode_with(values: &Values, text: &[u8], out: &mut [u8]) -> Result<usize, DecodeError>
    ensures { decoded_to (decoded result) out.new ≡ decoding text.now out.old }
{
    let n = decoded_len(text);
    if n <= out.len() && groups::decode_into(values, text, out) {
        return Ok(n);
    }
    common::zero(out);
    Err(fault::refuse(values, text))
}
