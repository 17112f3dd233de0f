// What follows a reverse solidus: RFC 8259 section 7 with the house rules on `\u`.
ghost use Rattle.std.specs.Prelude.{◌≡◌, true, ◌≤◌, length};
ghost use Rattle.json_grammar_rules.specs.Bytes.{is_high};
ghost use Rattle.json_grammar_rules.specs.Reader.{read_hex, read_low, read_unicode, read_escape};
ghost use Rattle.json_characters.specs.Steps.{ScanAt, ShortEscape};

use crate::classes::hex_digit;

// Four hexadecimal digits.
fn hex(s: &[u8], from: usize) -> Option<(u32, usize)>
    requires { from ≤ length s.now }
    ensures { ScanAt read_hex s.now from result }
{
    if s.len() - from < 4 {
        return None;
    }
    let mut code: u32 = 0;
    for at in from..from + 4 {
        code = code * 16 + hex_digit(s[at])?;
    }
    Some((code, from + 4))
}

// The escaped low surrogate, from DC00 to DFFF, that must follow the high surrogate `high`.
fn low(s: &[u8], at: usize, high: u32) -> Option<(u32, usize)>
    requires { (at ≤ length s.now) × (is_high high ≡ true) }
    ensures { ScanAt (read_low high) s.now at result }
{
    if s.len() - at < 2 {
        return None;
    }
    if s[at] != 0x5C {
        return None;
    }
    if s[at + 1] != 0x75 {
        return None;
    }
    let (x, next) = hex(s, at + 2)?;
    match x {
        0xDC00..=0xDFFF => Some((0x10000 + (high - 0xD800) * 1024 + (x - 0xDC00), next)),
        _ => None,
    }
}

// What follows `\u`: four digits; those of a high surrogate, from D800 to DBFF, are followed directly by a low one, which never stands alone.
fn unicode(s: &[u8], at: usize) -> Option<(u32, usize)>
    requires { at ≤ length s.now }
    ensures { ScanAt read_unicode s.now at result }
{
    let (x, next) = hex(s, at)?;
    match x {
        0xD800..=0xDBFF => low(s, next, x),
        0xDC00..=0xDFFF => None,
        _ => Some((x, next)),
    }
}

// The escapes of one byte; `next` is the place after it.
fn short(b: u8, next: usize) -> Option<(u32, usize)>
    requires { b ≡ 0x75 → ⊥ }
    ensures { ShortEscape b next result }
{
    match b {
        0x22 => Some((0x22, next)),
        0x5C => Some((0x5C, next)),
        0x2F => Some((0x2F, next)),
        0x62 => Some((0x08, next)),
        0x66 => Some((0x0C, next)),
        0x6E => Some((0x0A, next)),
        0x72 => Some((0x0D, next)),
        0x74 => Some((0x09, next)),
        _ => None,
    }
}

// What follows a reverse solidus.
pub(crate) fn escape(s: &[u8], at: usize) -> Option<(u32, usize)>
    requires { at ≤ length s.now }
    ensures { ScanAt read_escape s.now at result }
{
    if at >= s.len() {
        return None;
    }
    let b = s[at];
    if b == 0x75 {
        return unicode(s, at + 1);
    }
    short(b, at + 1)
}
