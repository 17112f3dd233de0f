// A string's value as UTF-8.
ghost use Rattle.std.specs.Prelude.{◌≡◌, []};
ghost use Rattle.json_string.specs.Strings.{resolved_at, resolved_to_at};
ghost use Rattle.json_string.specs.Steps.{Writes};

use common::{copy_at, zero};
use json_characters::{char_at, is_unescaped1, octets_of};

// Writes the octets of the string at p to the front of `out`, and answers how many they are, if a string stands there and `out` has
// room for it.
fn write(s: &[u8], p: usize, out: &mut [u8]) -> Option<usize>
    ensures { Writes s.now p [] out.old out.new result }
{
    let mut i = p;
    let mut n: usize = 0;
    while i < s.len() {
        let b = s[i];
        if b == 0x22 {
            return Some(n);
        }
        if is_unescaped1(b) {
            if out.len() <= n {
                return None; // full
            }
            out[n] = b;
            n += 1;
            i += 1;
        } else {
            let (c, next) = char_at(s, i)?;
            let o = octets_of(c);
            let count = o.count;
            let bytes = o.bytes;
            if out.len() - n < count {
                return None; // no room
            }
            copy_at(out, n, &bytes[..count]);
            n += count;
            i = next;
        }
    }
    None // no closing quotation mark
}

// Writes the string at p, in UTF-8, to the front of `out`, or clears `out` where it has no room for all of it or no string stands
// at p; answers how many octets it wrote, or none. Rules out octets cut off at the buffer's end, characters counted for octets, and octets of a text that breaks off.
pub fn resolve(s: &[u8], p: usize, out: &mut [u8]) -> Option<usize>
    ensures { (result ≡ resolved_at s.now p out.old) × (out.new ≡ resolved_to_at s.now p out.old) }
{
    let written = write(s, p, out);
    if written.is_none() {
        zero(out);
    }
    written
}
