// Arrays (RFC 8259 section 5).
ghost use Rattle.json_reader.specs.Reads.{ArrayEnds, ElementsEnd};

use crate::values::value;
use json_tokens::skip_ws;

// What follows an opening bracket, up to the closing one.
// Rules out a bracket that counts for no level, and an array that a brace closes.
// Beside `object`: they call on to different readers, which one function could tell apart by a flag alone, as a closure has no proof within the cycle.
#[cycle(reading)]
pub(crate) fn array(s: &[u8], from: usize, depth: usize) -> Option<usize>
    ensures { ArrayEnds s.now from depth result }
{
    if depth == 0 {
        return None;
    }
    let at = skip_ws(s, from);
    if at >= s.len() {
        return None;
    }
    if s[at] == 0x5D {
        return Some(at + 1);
    }
    elements(s, at, depth - 1)
}

// One element or more, and the closing bracket.
// Rules out a comma before the closing bracket, and elements with no comma between them.
// Beside `member_list`: what follows an item ends the list, goes on or is wrong, and a function with that answer of three cases is longer than these tests.
#[cycle(reading)]
pub(crate) fn elements(s: &[u8], from: usize, depth: usize) -> Option<usize>
    ensures { ElementsEnd s.now from depth result }
{
    let mut at = from;
    loop {
        let e = value(s, at, depth)?; // no value
        if e >= s.len() {
            return None;
        }
        let b = s[e];
        if b == 0x5D {
            return Some(e + 1);
        }
        if b != 0x2C {
            return None;
        }
        at = e + 1;
    }
}
