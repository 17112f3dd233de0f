// The members of an object and the elements of an array, one by one. A step reads its member or element once.
ghost use Rattle.std.specs.Prelude.{◌≡◌, ◌+◌, ◌≤◌, ◌<◌, length, drop, get_or};
ghost use Rattle.json_grammar_rules.specs.Reader.{ws, value_lead};
ghost use Rattle.json_reader.specs.Reads.{kind_by};
ghost use Rattle.json_members.specs.Steps.{first_in, first_member, first_element, top_members, next_in, item_by, item_at, entry_at};

use crate::places::{Value, kind_by, place_by};
use json_reader::{bare, value_span};
use json_rules::Place;
use json_string::string_end;
use json_tokens::skip_ws;

// A member: the place of its name, its value, and where the next member begins, if there is one.
#[derive(Clone, Copy, Debug, PartialEq, Eq)]
pub struct Entry {
    pub name: Place,
    pub value: Value,
    pub next: Option<usize>,
}

// An element of an array, likewise.
#[derive(Clone, Copy, Debug, PartialEq, Eq)]
pub struct Item {
    pub value: Value,
    pub next: Option<usize>,
}

// Where the first member begins of the object that opens at `brace`, if it has one.
// Rules out the brace's own place, and a member in `{ }`.
pub fn first_member(s: &[u8], brace: usize) -> Option<usize>
    requires { brace < length s.now }
    ensures { result ≡ first_member s.now brace }
{
    inside(s, brace, 0x7D)
}

// Where the first element begins of the array that opens at `bracket`, if it has one.
// Rules out the bracket's own place, and an element in `[ ]`.
pub fn first_element(s: &[u8], bracket: usize) -> Option<usize>
    requires { bracket < length s.now }
    ensures { result ≡ first_element s.now bracket }
{
    inside(s, bracket, 0x5D)
}

// Where the first member of the top object begins, if it has one.
// Rules out no members of a header that has some, and a brace looked for in the white space before it.
pub fn top_members(header: &[u8]) -> Option<usize>
    ensures { result ≡ top_members header.now }
{
    let at = skip_ws(header, 0);
    if at < header.len() {
        return first_member(header, at);
    }
    None
}

// What follows the byte at `before` and white space, unless it is the byte `close`.
fn inside(s: &[u8], before: usize, close: u8) -> Option<usize>
    requires { before < length s.now }
    ensures { result ≡ first_in close s.now (ws (drop (before + 1) s.now)) }
{
    let p = skip_ws(s, before + 1);
    if p >= s.len() {
        return None;
    }
    if s[p] == close {
        return None;
    }
    Some(p)
}

// What follows the comma after a value that ends at e, if there is one.
fn after_comma(s: &[u8], e: usize) -> Option<usize>
    ensures { result ≡ next_in s.now (ws (drop e s.now)) }
{
    let at = skip_ws(s, e);
    if at >= s.len() {
        return None;
    }
    if s[at] != 0x2C {
        return None;
    }
    let p = skip_ws(s, at + 1);
    if p >= s.len() {
        return None;
    }
    Some(p)
}

// The value that stands from f to e, and what follows it.
fn spanned(s: &[u8], f: usize, e: usize) -> Item
    requires { (f < e) × (e ≤ length s.now) }
    ensures { result ≡ item_by s.now (kind_by (value_lead (get_or s.now f 0))) f e (ws (drop e s.now)) }
{
    Item {
        value: Value {
            kind: kind_by(s[f]),
            place: place_by(s[f], f, e),
        },
        next: after_comma(s, e),
    }
}

// The element at p, if one is read there.
// Rules out a string's place that has its quotation mark, the kind of another value, and a place where no element is read.
pub fn item_at(s: &[u8], p: usize, depth: usize) -> Option<Item>
    ensures { result ≡ item_at s.now p depth }
{
    let f = skip_ws(s, p);
    let e = bare(s, f, depth)?;
    Some(spanned(s, f, e))
}

// The member at p, if one is read there.
// Rules out a name's place that begins a byte late, the kind of another value, and a member with no quotation mark before its name.
pub fn entry_at(s: &[u8], p: usize, depth: usize) -> Option<Entry>
    requires { p < length s.now }
    ensures { result ≡ entry_at s.now p depth }
{
    if s[p] != 0x22 {
        return None;
    }
    let q = string_end(s, p + 1)?;
    let (f, e) = value_span(s, q, depth)?;
    let Item { value, next } = spanned(s, f, e);
    Some(Entry {
        name: Place {
            start: p + 1,
            end: q - 1,
        },
        value,
        next,
    })
}
