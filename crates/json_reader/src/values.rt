// Values (RFC 8259 section 3). The readers of values, arrays and objects call one another: the depth left falls at each bracket
// and brace, and the bytes left fall at each byte that is read.
ghost use Rattle.std.specs.Prelude.{◌≡◌};
ghost use Rattle.json_reader.specs.Reads.{ValueEnds, bare_end, value_span};

use crate::arrays::array;
use crate::objects::object;
use json_string::string_end;
use json_tokens::{number_end, skip_ws, word_end};

// What follows the first letters of the words. They are copied to be lent: a text that is lent itself would be data of the archive.
const RUE: [u8; 3] = *b"rue";

const ALSE: [u8; 4] = *b"alse";

const ULL: [u8; 3] = *b"ull";

// A value, with white space before and after it.
// Rules out an answer before the white space after the value, and a value that is deeper than `depth`.
#[cycle(reading)]
pub(crate) fn value(s: &[u8], from: usize, depth: usize) -> Option<usize>
    ensures { ValueEnds s.now from depth result }
{
    let at = skip_ws(s, from);
    let e = bare(s, at, depth)?;
    Some(skip_ws(s, e))
}

// A value from its first byte on, without the white space after it.
// Rules out a word that is cut short, and an array that is deeper than `depth`.
#[cycle(reading)]
pub fn bare(s: &[u8], at: usize, depth: usize) -> Option<usize>
    ensures { result ≡ bare_end s.now at depth }
{
    if at >= s.len() {
        return None;
    }
    match s[at] {
        0x22 => string_end(s, at + 1),
        0x5B => array(s, at + 1, depth),
        0x7B => object(s, at + 1, depth),
        0x74 => {
            let rest = RUE;
            word_end(s, at + 1, &rest)
        }
        0x66 => {
            let rest = ALSE;
            word_end(s, at + 1, &rest)
        }
        0x6E => {
            let rest = ULL;
            word_end(s, at + 1, &rest)
        }
        _ => number_end(s, at),
    }
}

// The place of the value after a name whose closing quotation mark is before q, without the white space around it: its first byte's, and the place after its last.
// Rules out a place that begins at the colon, and a comma in the place of the colon.
pub fn value_span(s: &[u8], q: usize, depth: usize) -> Option<(usize, usize)>
    ensures { result ≡ value_span s.now q depth }
{
    let colon = skip_ws(s, q);
    if colon >= s.len() {
        return None;
    }
    if s[colon] != 0x3A {
        return None;
    }
    let from = skip_ws(s, colon + 1);
    let to = bare(s, from, depth)?;
    Some((from, to))
}
