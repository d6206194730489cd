ghost use Rattle.std.specs.Prelude.{◌≡◌, ℕ, List, MatchResult};
ghost use Rattle.std.specs.List.{FoldsTo};
ghost use Rattle.glossary.specs.Visits.{class_in};
ghost use Rattle.tables.specs.Vocabulary.{class_names};
ghost use Rattle.terms.specs.Nodes.{name_bytes};
ghost use Rattle.terms.specs.Term.{Spelled};
ghost use Rattle.terms.specs.Told.{IsRead, IsRefused};

use names::{Name, Refusal};
use terms::{Builder, Node, Sort, read};

// What is shown the class names of a term, from left to right.
pub(crate) trait Visitor: Drop {
    // a class of this name, shown in this state, leaves that state
    ghost sees: { Self → List ℕ → Self → Type 0 };

    fn see(&mut self, class: &Name)
        ensures { sees self.old (name_bytes class.now) self.new };
}

// Builds nothing: a visitor sees the classes while the term is read.
#[derive(Drop)]
struct Visiting<V: Visitor> {
    visitor: V,
}

impl<V: Visitor> Builder for Visiting<V> {
    ghost labels = { λ s k w _ t. FoldsTo V.sees s.visitor (class_in k w) t.visitor };

    ghost makes = { λ s _ _ t. s.visitor ≡ t.visitor };

    fn label(&mut self, sort: Sort, name: Name) -> usize {
        if let Sort::OfClass = sort {
            self.visitor.see(&name);
        }
        0
    }

    fn node(&mut self, _node: Node) -> usize {
        0
    }
}

// The visitor after it saw the class names of a term.
pub(crate) fn visit<V: Visitor>(text: &[u8], visitor: V) -> Result<V, Refusal>
    ensures { MatchResult result (λ v. (t : Spelled) × IsRead text.now t × FoldsTo V.sees visitor (class_names t) v) (λ e. IsRefused text.now e) }
{
    let mut visiting = Visiting { visitor };
    read(&mut visiting, text)?;
    Ok(visiting.visitor)
}
