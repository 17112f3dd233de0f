// What a header decides with a key table: the rules on its known members (RFC 7515 section 4 with the house rules; answers 2, 5 and 7
// to 14) as definitions and theorems, in specs/ and proofs/, and the types that they speak of. `jose_facts`, `jose_judging` and `jose`
// compute them.
#![tactic(auto)]

// WHAT A HEADER SAYS of a known member, with no text and no place.
#[derive(Clone, Copy)]
pub enum Said<T> {
    // The header has no such member.
    Absent,
    // The member is of the wrong kind.
    Wrong,
    // What it says.
    Is(T),
}

// What `alg` says.
#[derive(Clone, Copy)]
pub enum Algorithm {
    HS256,
    Other,
}

// What the list of `crit` says: whether it is empty, has a name twice or a name that may not be listed; and whether it lists `fmt`.
#[derive(Clone, Copy)]
pub struct Listed {
    pub bad: bool,
    pub fmt: bool,
}

#[derive(Clone, Copy)]
pub struct Facts {
    pub alg: Said<Algorithm>,
    // The index of the key that has this id, if one has it.
    pub kid: Said<Option<usize>>,
    pub typ: Said<()>,
    pub cty: Said<()>,
    pub crit: Said<Listed>,
    pub fmt: Said<i64>,
}

// What the facts take where no rule refuses: the key's index, whether `kid` is there, and the format.
#[derive(Clone, Copy)]
pub struct Taken {
    pub key_index: usize,
    pub kid_present: bool,
    pub format: u8,
}

// A part of a header: the place of its first byte, and how many bytes it has.
#[derive(Clone, Copy)]
pub struct Part {
    pub start: usize,
    pub length: usize,
}

// What a header decides: the key's index, whether `kid` is there, the format, and the raw texts of `typ` and `cty` between their
// quotation marks. (The C interface's record has 0 and 0 where they are absent, and so have the promises: no Option.)
#[derive(Clone, Copy)]
pub struct Choice {
    pub key_index: usize,
    pub kid_present: bool,
    pub format: u8,
    pub typ: Part,
    pub cty: Part,
}
