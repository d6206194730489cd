// The vocabulary of a sheet: names by number, each different term once, within limits; what a line or a query makes of it.
#![tactic(auto)]

mod calls;
mod entries;
mod inputs;
mod making;
mod placed;
mod placing;
mod queries;
mod undoing;
mod vocabularies;
mod words;

pub use inputs::name_in;
pub use placed::{PlacedGloss, PlacedStatement, PlacedTie};
pub use queries::Query;
pub use vocabularies::Vocabulary;
