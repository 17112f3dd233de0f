// Readers of a JSON text, by place: arrays, objects, values, and the whole text (RFC 8259 with the house rules).
// Each answers where what it reads ends, or that it isn't there. They are over the reader on lists of json_grammar_rules.
#![tactic(auto)]

mod arrays; // arrays.rt: arrays
mod objects; // objects.rt: objects
mod values; // values.rt: values, and the place of a member's value
mod texts; // texts.rt: the whole text

pub use texts::text;
pub use values::{bare, value_span};
