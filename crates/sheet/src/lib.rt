// Sheets: glosses, statements and ties that were accepted, with all that was refused left out.
#![tactic(auto)]

mod calls;
mod glossing;
mod line;
mod lines;
mod listing;
mod pages;
mod queries;
mod sheets;

pub use line::Line;
pub use sheets::Sheet;
