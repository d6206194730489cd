// Registers: a file's lines, entered one by one into a sheet, and the report on them.
#![tactic(auto)]

mod printing;
mod proofs;
mod readings;
mod tallies;
mod walks;

pub use proofs::{proofread, room};
pub use tallies::{Proofread, Tally};
pub use walks::{LIMIT, ROOM};
