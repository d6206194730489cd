ghost use Rattle.std.specs.Prelude.{◌≡◌, ℕ, ◌<◌, ◌≤◌, map, length, MatchResult};
ghost use Rattle.std.specs.List.{list_any};
ghost use Rattle.glossary.specs.Asked.{reaches};
ghost use Rattle.glossary.specs.Records.{has_at};
ghost use Rattle.glossary.specs.Sees.{ReacherSees};
ghost use Rattle.tables.specs.Vocabulary.{class_names};
ghost use Rattle.terms.specs.Nodes.{name_bytes};
ghost use Rattle.terms.specs.Term.{Spelled};
ghost use Rattle.terms.specs.Told.{IsRead, IsRefused};

use crate::records::{CLASSES, ClassSet};
use crate::table::Glossary;
use crate::visiting::{Visitor, visit};
use distinct::Distinct;
use names::{Name, Refusal};

// Gathers the known classes of a term, and all they refer to.
#[derive(Drop)]
struct Reacher<'a> {
    classes: &'a Distinct<Name>,
    glossary: &'a Glossary,
    found: ClassSet,
}

impl<'a> Visitor for Reacher<'a> {
    ghost sees = { ReacherSees };

    fn see(&mut self, class: &Name) {
        if let Some(c) = self.classes.find(class) {
            self.found.add(c);
            self.found.join(&self.glossary.reach_of(c));
        }
    }
}

// The classes of a term that are known, and all they refer to.
pub fn reach<'a>(
    classes: &'a Distinct<Name>,
    glossary: &'a Glossary,
    text: &[u8],
) -> Result<ClassSet, Refusal>
    ensures { MatchResult result (λ s. (t : Spelled) × IsRead text.now t × ((f : ℕ) → f < CLASSES → has_at s f ≡ list_any (λ v. reaches (map name_bytes classes.now.items.items) glossary.now.records.items v f) (class_names t)) × (length classes.now.items.items ≤ CLASSES → (f : ℕ) → has_at s f ≡ list_any (λ v. reaches (map name_bytes classes.now.items.items) glossary.now.records.items v f) (class_names t))) (λ e. IsRefused text.now e) }
{
    let reacher = Reacher {
        classes,
        glossary,
        found: ClassSet::new(),
    };
    Ok(visit(text, reacher)?.found)
}
