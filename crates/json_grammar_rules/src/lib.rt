// The grammar of the header, its readings and places, and what is proved of them: see specs/ and proofs/. This crate has no code.
#![tactic(auto)]

// The seven kinds of value.
#[derive(Clone, Copy, Debug, PartialEq, Eq)]
pub enum Kind {
    String,
    Number,
    True,
    False,
    Null,
    Array,
    Object,
}
