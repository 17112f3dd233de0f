// Rules 9 to 14 by what a header says: `judge` decides by facts alone, so that whoever has them, of one header or of two, gets the same
// answer (RFC 7515 section 4 with the house rules).
#![tactic(auto)]

mod asked; // asked.rt: what is asked of what a header says of a member
mod judging; // judging.rt: rules 9 to 14 by the facts
mod union; // union.rt: the facts of two headers together

pub use asked::{is_missing, is_there, is_wrong, said_or};
pub use judging::judge;
pub use union::merge;
