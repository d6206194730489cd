// Glosses of classes: which class refers to which through them, and whether one more would make a circle.
#![tactic(auto)]

mod asking;
mod glosses;
mod reaching;
mod records;
mod sets;
mod table;
mod visiting;

pub use asking::{circular, number_of};
pub use reaching::reach;
pub use records::{ClassRecord, ClassSet};
pub use table::Glossary;
