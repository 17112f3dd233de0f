// Why a text is refused. It goes over the characters one by one: only a refusal pays for it.
ghost use Rattle.std.specs.Prelude.{◌≡◌, nat_le, position};
ghost use Rattle.base64url_rules.specs.Alphabet.{value};
ghost use Rattle.base64url_rules.specs.Base64url.{unused_bits};
ghost use Rattle.base64url_rules.specs.Fault.{fault};
ghost use Rattle.base64url_rules.specs.Outcome.{refusal};
ghost use Rattle.base64url_decoding.specs.Answers.{refused};

use crate::DecodeError;
use base64url_words::Values;

// The place of the first character outside the alphabet. Rules out _ counted as outside, and none found where = stands.
pub fn first_outside(values: &Values, text: &[u8]) -> Option<usize>
    ensures { result ≡ position (λ c. nat_le 64 (value c)) text.now }
{
    // no `position`, as in crate jws_segments' search for periods
    for i in 0..text.len() {
        if values.value(text[i]) >= 64 {
            return Some(i);
        }
    }
    None
}

// The bits of the last character that belong to no byte.
fn unused_bits(values: &Values, text: &[u8]) -> u8
    ensures { result ≡ unused_bits text.now }
{
    let n = text.len();
    match n % 4 {
        2 => values.value(text[n - 1]) % 16,
        3 => values.value(text[n - 1]) % 4,
        _ => 0,
    }
}

// The answer to a text that is not decoded: its fault, or that the buffer is too short.
pub(crate) fn refuse(values: &Values, text: &[u8]) -> DecodeError
    ensures { refused result ≡ refusal (fault text.now) }
{
    let n = text.len();
    if let Some(place) = first_outside(values, text) {
        DecodeError::Fault(place)
    } else if n % 4 == 1 {
        DecodeError::Fault(n)
    } else if unused_bits(values, text) == 0 {
        DecodeError::Short
    } else {
        DecodeError::Fault(n - 1)
    }
}
