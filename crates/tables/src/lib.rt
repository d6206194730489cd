// The tables of a sheet's terms: names by number for each sort, and each different term once, within limits.
#![tactic(auto)]

mod building;
mod entering;
mod tables;

pub use tables::{Mark, Tables};
