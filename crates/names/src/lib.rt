// Names, and the refusals that the layers above tell.
#![tactic(auto)]

mod faults;
mod letters;
mod named;
mod refusals;
mod telling;

pub use named::Name;
pub use refusals::{Fault, Refusal};
