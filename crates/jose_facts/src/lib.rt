// What an object of a JSON text says of a header's known members: from the object's members, wherever they stand in a text, to facts
// that no longer speak of the text. The facts of a protected and of an unprotected header come from two texts.
#![tactic(auto)]

mod kinds; // kinds.rt: two kinds compared
mod words; // words.rt: the words that are looked for in a text
mod members; // members.rt: the known members, found in one walk over an object's members
mod says; // says.rt: what each known member but `crit` says
mod critical; // critical.rt: the names that `crit` lists
mod facts; // facts.rt: the facts together

pub use facts::facts_of;
pub use members::{Known, known_from};
