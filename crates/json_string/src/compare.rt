// Strings compared after their escapes are resolved. Each is given by the place of its first character.
ghost use Rattle.std.specs.Prelude.{◌≡◌, ◌*◌, ◌≤◌, length};
ghost use Rattle.json_string.specs.Strings.{same_text, text_is, mix, fingerprint_at};
ghost use Rattle.json_string.specs.Steps.{OctetsEnd};

use json_characters::{char_at, is_unescaped1, octets_of};

// Whether strings stand at p in s and at q in t, and have the same code points. Rules out a prefix taken for the whole, and strings compared as
// they are written, before their escapes are resolved.
pub fn same_text(s: &[u8], p: usize, t: &[u8], q: usize) -> bool
    ensures { result ≡ same_text s.now p t.now q }
{
    let mut i = p;
    let mut j = q;
    while i < s.len() {
        if j < t.len() {
            let a = s[i];
            let b = t[j];
            if a == 0x22 {
                return b == 0x22;
            }
            if b == 0x22 {
                return false;
            }
            let Some((x, i2)) = char_at(s, i) else {
                return false;
            };
            let Some((y, j2)) = char_at(t, j) else {
                return false;
            };
            if x == y {
                i = i2;
                j = j2;
            } else {
                return false;
            }
        } else {
            return false;
        }
    }
    false
}

// The fingerprint of no code points.
const UNMIXED: u64 = 0x9E3779B97F4A7C15;

fn by_prime(x: u32) -> u64
    ensures { result ≡ x * 2654435761 }
{
    x as u64 * 2654435761
}

// Mixes one more code point into a fingerprint. A hash by multiplying and adding alone is a sum, and other code points with the same sum
// are found by solving an equation; here each bit of the product meets another of what went before.
fn mixed(h: u64, c: u32) -> u64
    ensures { result ≡ mix h c }
{
    let low = (h % 4294967296) as u32;
    by_prime(low ^ c) ^ ((h >> 32) | (h << 32))
}

// A number that strings with the same code points share, and others do not but by chance or by a long search; 0 where no string stands.
// Rules out two numbers for two writings of one character, and a number of the last character alone.
pub fn fingerprint(s: &[u8], p: usize) -> u64
    ensures { result ≡ fingerprint_at s.now p }
{
    let mut at = p;
    let mut h: u64 = UNMIXED;
    while at < s.len() {
        let b = s[at];
        if is_unescaped1(b) {
            h = mixed(h, u32::from(b));
            at += 1;
        } else {
            if b == 0x22 {
                return h;
            }
            let Some((c, next)) = char_at(s, at) else {
                return 0;
            };
            h = mixed(h, c);
            at = next;
        }
    }
    0
}

// Whether strings stand at p in s and at q in t, of fingerprints f and g, and have the same code points. Rules out strings with one fingerprint
// taken for different ones, and a string compared with itself.
pub fn same_by_fingerprint(s: &[u8], p: usize, t: &[u8], q: usize, f: u64, g: u64) -> bool
    requires { (f ≡ fingerprint_at s.now p) × (g ≡ fingerprint_at t.now q) }
    ensures { result ≡ same_text s.now p t.now q }
{
    f == g && same_text(s, p, t, q)
}

// The place in w after the octets of the code point c, where they stand at `at`.
fn octets_end(w: &[u8], at: usize, c: u32) -> Option<usize>
    requires { (at ≤ length w.now) × (c ≤ 0x10FFFF) }
    ensures { OctetsEnd w.now at c result }
{
    let o = octets_of(c);
    let n = o.count;
    let bytes = o.bytes;
    if w.len() - at < n {
        return None;
    }
    for i in 0..n {
        if w[at + i] != bytes[i] {
            return None;
        }
    }
    Some(at + n)
}

// Whether a string stands at p that, in UTF-8, is exactly `word`. Rules out a prefix of the word taken for the whole, every character
// looked for at the word's start, and a text that breaks off taken for the word.
pub fn text_is(s: &[u8], p: usize, word: &[u8]) -> bool
    ensures { result ≡ text_is s.now p word.now }
{
    let mut i = p;
    let mut k = 0;
    while i < s.len() {
        let b = s[i];
        if b == 0x22 {
            return k == word.len();
        }
        if is_unescaped1(b) {
            if word.len() <= k {
                return false;
            }
            if word[k] != b {
                return false;
            }
            i += 1;
            k += 1;
        } else {
            let Some((c, next)) = char_at(s, i) else {
                return false;
            };
            let Some(e) = octets_end(word, k, c) else {
                return false;
            };
            i = next;
            k = e;
        }
    }
    false // no closing quotation mark
}
