ghost use Rattle.std.specs.Result.{MatchResult};
ghost use Rattle.terms.specs.Term.{Spelled};
ghost use Rattle.terms.specs.Told.{IsRead, IsRefused};

use crate::builders::Builder;
use crate::nodes::{Node, Sort};
use crate::texts::read;
use names::{Name, Refusal};

// Builds nothing.
#[derive(Clone, Copy)]
struct Idle;

impl Builder for Idle {
    ghost labels = { λ _ _ _ _ _. Unit {0} };

    ghost makes = { λ _ _ _ _. Unit {0} };

    fn label(&mut self, _sort: Sort, _name: Name) -> usize {
        0
    }

    fn node(&mut self, _node: Node) -> usize {
        0
    }
}

// Reads a text as a term and keeps nothing of it: whether it is one, or its fault.
pub fn check(text: &[u8]) -> Result<(), Refusal>
    ensures { MatchResult result (λ _. (t : Spelled) × IsRead text.now t) (λ e. IsRefused text.now e) }
{
    read(&mut Idle, text)?;
    Ok(())
}
