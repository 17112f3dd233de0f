// SHA-256's compression of eight blocks, one after the other (FIPS 180-4, section 6.2.2). A schedule doesn't depend on the hash value: those
// of eight blocks are made together, by a loop that a compiler turns into wide instructions.
#![tactic(auto)]

mod rounds; // rounds.rt: the rounds of one of the eight, and the compression of all
mod schedules; // schedules.rt: the schedules, word by word side by side

pub use rounds::compress_eight;
pub use schedules::Schedules;
