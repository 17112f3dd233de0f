// Numbers (RFC 8259 section 6): number = [ minus ] int [ frac ] [ exp ].
ghost use Rattle.std.specs.Prelude.{◌≡◌, ◌≤◌, ◌<◌, length};
ghost use Rattle.json_grammar_rules.specs.Bytes.{is_digit, is_e, is_sign};
ghost use Rattle.json_grammar_rules.specs.Reader.{optional};
ghost use Rattle.json_tokens.specs.Tokens.{skip_to, MovesTo, DigitsEnd, IntEnds, FracEnds, ExpEnds, UnsignedEnds, number_end};

use crate::classes::skip;

// DIGIT
fn is_digit(b: u8) -> bool
    ensures { result ≡ is_digit b }
{
    matches!(b, 0x30..=0x39)
}

// minus / plus
fn is_sign(b: u8) -> bool
    ensures { result ≡ is_sign b }
{
    b == 0x2D || b == 0x2B
}

// e
fn is_e(b: u8) -> bool
    ensures { result ≡ is_e b }
{
    b == 0x65 || b == 0x45
}

// *DIGIT: the place after the digits from `from` on.
fn skip_digits(s: &[u8], from: usize) -> usize
    ensures { result ≡ skip_to is_digit s.now from }
{
    skip(s, from, is_digit)
}

// 1*DIGIT
fn digits_end(s: &[u8], at: usize) -> Option<usize>
    ensures { DigitsEnd s.now at result }
{
    if at >= s.len() {
        return None;
    }
    if is_digit(s[at]) {
        return Some(skip_digits(s, at + 1));
    }
    None // no digit
}

// int = zero / ( digit1-9 *DIGIT )
fn int_end(s: &[u8], at: usize) -> Option<usize>
    ensures { IntEnds s.now at result }
{
    if at >= s.len() {
        return None;
    }
    match s[at] {
        0x30 => Some(at + 1),
        0x31..=0x39 => Some(skip_digits(s, at + 1)),
        _ => None, // no number
    }
}

// [ frac ], frac = decimal-point 1*DIGIT
fn frac_end(s: &[u8], at: usize) -> Option<usize>
    requires { at ≤ length s.now }
    ensures { FracEnds s.now at result }
{
    if at >= s.len() {
        return Some(at);
    }
    if s[at] == 0x2E {
        return digits_end(s, at + 1);
    }
    Some(at)
}

// [ minus / plus ]
fn skip_sign(s: &[u8], at: usize) -> usize
    ensures { MovesTo (optional is_sign) s.now at result }
{
    if at >= s.len() {
        return at;
    }
    if is_sign(s[at]) {
        return at + 1;
    }
    at
}

// [ exp ], exp = e [ minus / plus ] 1*DIGIT
fn exp_end(s: &[u8], at: usize) -> Option<usize>
    requires { at ≤ length s.now }
    ensures { ExpEnds s.now at result }
{
    if at >= s.len() {
        return Some(at);
    }
    if is_e(s[at]) {
        return digits_end(s, skip_sign(s, at + 1));
    }
    Some(at)
}

// int [ frac ] [ exp ]
fn unsigned_end(s: &[u8], at: usize) -> Option<usize>
    ensures { UnsignedEnds s.now at result }
{
    let f = int_end(s, at)?;
    let x = frac_end(s, f)?;
    exp_end(s, x)
}

// The place after the number at `at`.
// Rules out a number with a leading zero taken whole, and an exponent without digits.
pub fn number_end(s: &[u8], at: usize) -> Option<usize>
    requires { at < length s.now }
    ensures { result ≡ number_end s.now at }
{
    if s[at] == 0x2D {
        return unsigned_end(s, at + 1);
    }
    unsigned_end(s, at)
}
