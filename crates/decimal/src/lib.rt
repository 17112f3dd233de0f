// An integer's decimal text, read into i64: exact at both ends and at -0.
#![tactic(auto)]

ghost use Rattle.std.specs.Prelude.{◌≡◌, ◌≤◌, neg_ℤ, pos};
ghost use Rattle.decimal_rules.specs.Integer.{integer_of};
ghost use Rattle.decimal.specs.Magnitude.{digit_of, magnitude_of};

// The integer that a text writes in decimal, where i64 holds it. Any length of text is answered.
// Rules out that 9223372036854775808 wraps round to the least number, and that `-0` or the least number is refused.
pub fn parse(text: &[u8]) -> Option<i64>
    ensures { result ≡ integer_of text.now }
{
    if let [b'-', rest @ ..] = text {
        let m = unsigned(rest, 9_223_372_036_854_775_808)?;
        Some(negated(m))
    } else {
        let m = unsigned(text, 9_223_372_036_854_775_807)?;
        Some(m as i64)
    }
}

// The value of one or more digits and nothing else, where it is at most `most`.
fn unsigned(text: &[u8], most: u64) -> Option<u64>
    requires { 9 ≤ most }
    ensures { result ≡ magnitude_of most text.now }
{
    if text.is_empty() {
        return None;
    }
    let mut m: u64 = 0;
    for c in text {
        let d = digit(*c)?;
        if (most - d) / 10 < m {
            return None;
        }
        m = 10 * m + d;
    }
    Some(m)
}

// The value of a digit.
#[tactic(auto, unfolding(common::specs::Ranges::is_digit, common::specs::Ranges::within))]
fn digit(c: u8) -> Option<u64>
    ensures { result ≡ digit_of c }
{
    match c {
        b'0'..=b'9' => Some(u64::from(c - b'0')),
        _ => None,
    }
}

// -m, also for the m that i64 itself does not hold.
fn negated(m: u64) -> i64
    requires { m ≤ 9_223_372_036_854_775_808 }
    ensures { result ≡ neg_ℤ (pos m) }
{
    if m == 0 { 0 } else { -1 - (m - 1) as i64 }
}
