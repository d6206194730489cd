// The language of terms: words and tokens, nodes, and reading a text with any builder.
#![tactic(auto)]

mod builders;
mod checks;
mod kinds;
mod nodes;
mod readers;
mod rests;
mod texts;
mod tokens;
mod words;

pub use builders::Builder;
pub use checks::check;
pub use nodes::{Node, Sort};
pub use texts::read;
pub use words::{Join, Modality, Operator, Quantifier, Token};
