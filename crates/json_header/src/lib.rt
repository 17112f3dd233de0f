// A JSON header: what it answers, and its members by place (RFC 8259 and RFC 3629, with the house rules).
#![tactic(auto)]

mod header; // header.rt: what a header answers, and its members

pub use header::{check, member};
pub use json_rules::{Member, Place};
