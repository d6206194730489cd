// A term by itself: read from a text, and written into a buffer.
#![tactic(auto)]

mod drafts;
mod kept;
mod parts;
mod writers;

pub use kept::Expression;
