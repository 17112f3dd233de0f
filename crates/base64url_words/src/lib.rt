// The characters of a base64url text as numbers, a group of four at a time: what `base64url_decoding` writes bytes from.
#![tactic(auto)]

mod values; // values.rt: the values of the characters
mod words; // words.rt: four characters as one number
mod wide; // wide.rt: the table for long texts
mod groups; // groups.rt: one group to its bytes, two to theirs

pub use groups::{group, two_groups};
pub use values::Values;
pub use wide::Wide;
pub use words::Table;
