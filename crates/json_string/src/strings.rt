// The end of a string.
ghost use Rattle.std.specs.Prelude.{◌≡◌};
ghost use Rattle.json_string.specs.Strings.{string_end};

use json_characters::{char_at, is_unescaped1};

// The place after a string's closing quotation mark, if one stands there; `from` is the place after the opening one. Rules out an end at an escape, and
// the quotation mark's own place.
pub fn string_end(s: &[u8], from: usize) -> Option<usize>
    ensures { result ≡ string_end s.now from }
{
    let mut at = from;
    while at < s.len() {
        let b = s[at];
        if is_unescaped1(b) {
            at += 1;
        } else {
            if b == 0x22 {
                return Some(at + 1);
            }
            let (_, next) = char_at(s, at)?;
            at = next;
        }
    }
    None
}
