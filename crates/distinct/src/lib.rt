// Keeping without repeats, once, for every kind whose values can be told alike or different.
#![tactic(auto)]

mod kind;
mod table;
#[cfg(test)]
mod tests;

pub use kind::Alike;
pub use table::Distinct;
