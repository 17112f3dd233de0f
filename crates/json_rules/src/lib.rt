// A JSON header's rules as definitions and theorems, in specs/ and proofs/, and the types of the code that computes them (RFC 8259 and RFC 3629, with the house rules).
// The crates `json_check` and `json_header` compute them.
#![tactic(auto)]

// The greatest length of a header, and the greatest depth, in which the top object is 1.
pub const LONGEST: usize = 4096;

pub const DEEPEST: usize = 16;

// A part of a text: start is the place of its first byte, end the place after its last.
#[derive(Clone, Copy, Debug, PartialEq, Eq)]
pub struct Place {
    pub start: usize,
    pub end: usize,
}

// What the member reader shows: a member of the top object, by the kind of its value, as the place of its name and the place of its value.
// A case for each kind is a form that docs/DECISIONS.md fixes.
#[derive(Clone, Copy, Debug, PartialEq, Eq)]
pub enum Member {
    String(Place, Place),
    Number(Place, Place),
    True(Place, Place),
    False(Place, Place),
    Null(Place, Place),
    Array(Place, Place),
    Object(Place, Place),
}
