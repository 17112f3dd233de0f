// Forms of several octets (RFC 3629), read and written.
ghost use Rattle.std.specs.Prelude.{◌≡◌, false, ◌<◌, ◌≤◌, length};
ghost use Rattle.json_grammar_rules.specs.Reader.{is_unescaped1};
ghost use Rattle.json_characters.specs.Octets.{octets_in};
ghost use Rattle.json_characters.specs.Steps.{ScanAt, read_tails, FormAt};
ghost use Rattle.json_characters.specs.Utf8.{tail};

// The n octets of a form after its first, of which x has the bits; the second octet lies from lo to hi.
fn tails(s: &[u8], from: usize, n: usize, lo: u8, hi: u8, x: u32) -> Option<(u32, usize)>
    requires { (from ≤ length s.now) × (n ≤ 3) × (0x80 ≤ lo) × (hi ≤ 0xBF) × (x < 32) }
    ensures { ScanAt (read_tails n lo hi x) s.now from result }
{
    let mut low = lo;
    let mut high = hi;
    let mut code = x;
    for at in from..from + n {
        if at >= s.len() {
            return None;
        }
        let c = s[at];
        if c < low || high < c {
            return None;
        }
        code = code * 64 + u32::from(c - 0x80);
        low = 0x80;
        high = 0xBF;
    }
    Some((code, from + n))
}

// The octets after the first octet b of a form; each row gives the bounds of the second (RFC 3629 section 4).
pub(crate) fn form(s: &[u8], at: usize, b: u8) -> Option<(u32, usize)>
    requires { (at ≤ length s.now) × (is_unescaped1 b ≡ false) × (b ≡ 0x5C → ⊥) }
    ensures { FormAt b s.now at result }
{
    match b {
        0xC2..=0xDF => tails(s, at, 1, 0x80, 0xBF, u32::from(b - 0xC0)),
        0xE0 => tails(s, at, 2, 0xA0, 0xBF, 0),
        0xED => tails(s, at, 2, 0x80, 0x9F, 0xD),
        0xE1..=0xEF => tails(s, at, 2, 0x80, 0xBF, u32::from(b - 0xE0)),
        0xF0 => tails(s, at, 3, 0x90, 0xBF, 0),
        0xF4 => tails(s, at, 3, 0x80, 0x8F, 4),
        0xF1..=0xF3 => tails(s, at, 3, 0x80, 0xBF, u32::from(b - 0xF0)),
        _ => None,
    }
}

// The octets of a code point: the first `count` of `bytes`.
// A buffer with its length beside, since the library has no heap.
#[derive(Clone, Copy)]
pub struct Octets {
    pub count: usize,
    pub bytes: [u8; 4],
}

fn tail_octet(x: u32) -> u8
    ensures { result ≡ tail x }
{
    (0x80 + x % 64) as u8
}

// The octets of a code point, and then zeros. Rules out a form that is longer than it need be, and a first octet that names another count.
pub fn octets_of(c: u32) -> Octets
    requires { c ≤ 0x10FFFF }
    ensures { result ≡ octets_in c }
{
    if c <= 0x7F {
        return Octets {
            count: 1,
            bytes: [c as u8, 0, 0, 0],
        };
    }
    if c <= 0x7FF {
        return Octets {
            count: 2,
            bytes: [(0xC0 + c / 64) as u8, tail_octet(c), 0, 0],
        };
    }
    if c <= 0xFFFF {
        return Octets {
            count: 3,
            bytes: [
                (0xE0 + c / 4096) as u8,
                tail_octet(c / 64),
                tail_octet(c),
                0,
            ],
        };
    }
    Octets {
        count: 4,
        bytes: [
            (0xF0 + c / 262144) as u8,
            tail_octet(c / 4096),
            tail_octet(c / 64),
            tail_octet(c),
        ],
    }
}
