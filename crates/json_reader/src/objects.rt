// Objects (RFC 8259 section 4).
ghost use Rattle.json_reader.specs.Reads.{ObjectEnds, MembersEnd, MemberEnds, AfterName};

use crate::values::value;
use json_string::string_end;
use json_tokens::skip_ws;

// What follows an opening brace, up to the closing one.
// Rules out a brace that counts for no level, and an empty object at depth 0.
// Beside `array`, for the reason given there.
#[cycle(reading)]
pub(crate) fn object(s: &[u8], from: usize, depth: usize) -> Option<usize>
    ensures { ObjectEnds s.now from depth result }
{
    if depth == 0 {
        return None;
    }
    let at = skip_ws(s, from);
    if at >= s.len() {
        return None;
    }
    if s[at] == 0x7D {
        return Some(at + 1);
    }
    member_list(s, at, depth - 1)
}

// One member or more, and the closing brace.
// Rules out a comma before the closing brace, and members with no comma between them.
// Beside `elements`, for the reason given there; white space stands before a member's name, and is part of reading an element.
#[cycle(reading)]
pub(crate) fn member_list(s: &[u8], from: usize, depth: usize) -> Option<usize>
    ensures { MembersEnd s.now from depth result }
{
    let mut at = from;
    loop {
        let e = member(s, at, depth)?;
        if e >= s.len() {
            return None;
        }
        let b = s[e];
        if b == 0x7D {
            return Some(e + 1);
        }
        if b != 0x2C {
            return None;
        }
        at = skip_ws(s, e + 1);
    }
}

// A member: a string, a colon and a value, with the white space after it.
// Rules out a name that is no string, and a member that is missing after a comma.
#[cycle(reading)]
pub(crate) fn member(s: &[u8], from: usize, depth: usize) -> Option<usize>
    ensures { MemberEnds s.now from depth result }
{
    if from >= s.len() {
        return None;
    }
    if s[from] != 0x22 {
        return None; // no name
    }
    let q = string_end(s, from + 1)?;
    after_name(s, q, depth)
}

// What follows a name: a colon and a value.
// Rules out a comma in the place of the colon, and a name with no value.
#[cycle(reading)]
pub(crate) fn after_name(s: &[u8], from: usize, depth: usize) -> Option<usize>
    ensures { AfterName s.now from depth result }
{
    let at = skip_ws(s, from);
    if at >= s.len() {
        return None;
    }
    if s[at] != 0x3A {
        return None;
    }
    value(s, at + 1, depth)
}
