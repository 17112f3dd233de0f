// White space (RFC 8259 section 2).
ghost use Rattle.std.specs.Prelude.{◌≡◌};
ghost use Rattle.json_grammar_rules.specs.Bytes.{is_ws};
ghost use Rattle.json_tokens.specs.Tokens.{skip_ws};

use crate::classes::skip;

// Space, horizontal tab, line feed, carriage return.
fn is_ws(b: u8) -> bool
    ensures { result ≡ is_ws b }
{
    matches!(b, 0x20 | 0x09 | 0x0A | 0x0D)
}

// The place of the first byte from `from` on that is no white space, or the length; `from` where it is past the end.
// Rules out an answer that stops at white space, and one that passes over another byte.
pub fn skip_ws(s: &[u8], from: usize) -> usize
    ensures { result ≡ skip_ws s.now from }
{
    skip(s, from, is_ws)
}
