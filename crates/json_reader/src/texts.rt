// The whole text: white space, an object, white space (RFC 8259 section 2; the house rule wants an object).
ghost use Rattle.std.specs.Prelude.{◌≡◌};
ghost use Rattle.json_reader.specs.Reads.{is_text};

use crate::objects::object;
use json_tokens::skip_ws;

// Whether s is a text of depth `depth` at most.
// Rules out yes to a text with bytes after its object, and to an array in the object's place.
pub fn text(s: &[u8], depth: usize) -> bool
    ensures { result ≡ is_text depth s.now }
{
    let at = skip_ws(s, 0);
    if at >= s.len() {
        return false;
    }
    if s[at] != 0x7B {
        return false;
    }
    let Some(e) = object(s, at + 1, depth) else {
        return false;
    };
    skip_ws(s, e) == s.len()
}
