// Encoding as base64url without padding (RFC 4648 section 5): bytes to a segment's text. The definitions and theorems stand in
// crate `base64url_rules`.
#![tactic(auto)]

ghost use Rattle.std.specs.Prelude.{◌≡◌, length};
ghost use Rattle.base64url_rules.specs.Base64url.{encoded_length};
ghost use Rattle.base64url_rules.specs.Outcome.{encoded_to, encoding};
ghost use Rattle.base64url_encoding.specs.Answers.{encoded};

mod characters; // characters.rt: the characters of the values
mod groups; // groups.rt: bytes into a buffer that has room for their text

pub use characters::Alphabet;

// How many characters these bytes take. Rules out four characters for a rest of two bytes, and one for a rest
// of one.
pub fn encoded_len(bytes: &[u8]) -> usize
    ensures { result ≡ encoded_length (length bytes.now) }
{
    let groups = bytes.len() / 3;
    match bytes.len() % 3 {
        0 => groups * 4,
        rest => groups * 4 + (rest + 1),
    }
}

// Encodes bytes, and answers how many characters they take. The buffer has room: their text, and then what the buffer held before. Else nothing, and every
// byte of the buffer is 0. Rules out a rest filled up with bits that are not 0, and a buffer of just the text's length refused.
pub fn encode(bytes: &[u8], out: &mut [u8]) -> Option<usize>
    ensures { encoded_to (encoded result) out.new ≡ encoding bytes.now out.old }
{
    encode_with(&Alphabet::new(), bytes, out)
}

// The same, with an alphabet that the caller has made once. Rules out a character of the wrong bits,
// and a refusal that leaves the buffer as it was.
pub fn encode_with(alphabet: &Alphabet, bytes: &[u8], out: &mut [u8]) -> Option<usize>
    ensures { encoded_to (encoded result) out.new ≡ encoding bytes.now out.old }
{
    let n = encoded_len(bytes);
    if out.len() < n {
        common::zero(out);
        return None;
    }
    groups::encode_into(alphabet, bytes, out);
    Some(n)
}
