// Characters of a JSON text, by place: RFC 8259 section 7 with the house rules, RFC 3629.
#![tactic(auto)]

mod classes; // classes.rt: classes of bytes
mod utf8; // utf8.rt: forms of several octets, read and written
mod escapes; // escapes.rt: what follows a reverse solidus
mod characters; // characters.rt: the character at a place

pub use characters::char_at;
pub use classes::is_unescaped1;
pub use utf8::{Octets, octets_of};
