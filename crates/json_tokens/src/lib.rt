// Tokens of a JSON text, by place: white space, numbers, and the words true, false and null (RFC 8259).
// Each function answers where what it reads ends, or that it isn't there, as the reader on lists of json_grammar_rules does.
#![tactic(auto)]

mod classes; // classes.rt: bytes of one class
mod spaces; // spaces.rt: white space
mod numbers; // numbers.rt: numbers
mod words; // words.rt: true, false, null

pub use numbers::number_end;
pub use spaces::skip_ws;
pub use words::word_end;
