// The character at a place.
ghost use Rattle.std.specs.Prelude.{◌≡◌};
ghost use Rattle.json_characters.specs.Characters.{char_at};

use crate::classes::is_unescaped1;
use crate::escapes::escape;
use crate::utf8::form;

// The character at a place, if one stands there: its code point, and the place after it. Rules out an overlong form taken for a character, and `g` taken for a digit of an escape.
pub fn char_at(s: &[u8], at: usize) -> Option<(u32, usize)>
    ensures { result ≡ char_at s.now at }
{
    if at >= s.len() {
        return None;
    }
    let b = s[at];
    if is_unescaped1(b) {
        return Some((u32::from(b), at + 1));
    }
    if b == 0x5C {
        return escape(s, at + 1);
    }
    form(s, at + 1, b)
}
