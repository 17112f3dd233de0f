// The members of an object and the elements of an array, by place (RFC 8259 sections 4 and 5).
#![tactic(auto)]

mod places; // places.rt: kinds and places of values
mod steps; // steps.rt: members of an object and elements of an array, one by one
mod slots; // slots.rt: what is known of the members with the names that are looked for

pub use json_grammar_rules::Kind;
pub use json_rules::Place;
pub use places::{Value, size};
pub use slots::taken;
pub use steps::{Entry, Item, entry_at, first_element, first_member, item_at, top_members};
