// A register's lines, as far as they are about no sheet: cutting, letters, stages, and the line that tells a fault.
#![tactic(auto)]

mod buffers;
mod fields;
mod following;
mod kinds;
mod letters;
mod located;
mod walking;

pub use buffers::lay_out;
pub use fields::{Fields, cut_line};
pub use following::follow;
pub use kinds::{GlossLine, HeadingLine, LineKind, QuestionLine, StatementLine, TieLine, letter};
pub use letters::{Letter, Stage};
pub use located::Located;
pub use walking::FileLines;
