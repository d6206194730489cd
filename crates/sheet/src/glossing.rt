ghost use Rattle.std.specs.Prelude.{◌≡◌, ℕ, ◌≤◌, map, length, is_some, Ok, Err, MatchResult};
ghost use Rattle.distinct.specs.Numbering.{number};
ghost use Rattle.std.specs.List.{list_any};
ghost use Rattle.glossary.specs.Asked.{circles, reaches};
ghost use Rattle.glossary.specs.Records.{has_at};
ghost use Rattle.sheet.specs.Store.{store_of};
ghost use Rattle.tables.specs.Vocabulary.{class_names};
ghost use Rattle.terms.specs.Nodes.{name_bytes};
ghost use Rattle.terms.specs.Parse.{reading};
ghost use Rattle.terms.specs.Term.{Spelled};
ghost use Rattle.vocabulary.specs.Placing.{term_in};

use crate::pages::Page;
use glossary::{ClassSet, circular, number_of, reach};
use names::{Fault, Name};

impl Page {
    // Does this class have a gloss?
    pub(crate) fn has_gloss(&self, class: &Name) -> bool
        ensures { result ≡ is_some ((store_of self.now).gloss (number (store_of self.now).held.book.classes (name_bytes class.now))) }
    {
        let number = number_of(self.vocabulary.classes(), class);
        self.glossary.gloss(number).is_some()
    }

    // Would a gloss of this class by this term make a circle?
    pub(crate) fn makes_circle(&self, class: &Name, term: &[u8]) -> Result<bool, Fault>
        ensures { MatchResult result (λ b. (t : Spelled) × (reading term.now ≡ Ok t) × (b ≡ list_any (circles (store_of self.now).held.book.classes self.now.glossary.records.items (name_bytes class.now)) (class_names t))) (λ e. term_in 3 term.now ≡ Err e) }
    {
        let classes = self.vocabulary.classes();
        circular(classes, &self.glossary, class, term).map_err(|refusal| refusal.in_field(3))
    }

    // The classes of a term, and all that they refer to; none for a text that is no term.
    pub(crate) fn reach_of(&self, term: &[u8]) -> ClassSet
        ensures { length (store_of self.now).held.book.classes ≤ 64 → (t : Spelled) → reading term.now ≡ Ok t → (f : ℕ) → has_at result f ≡ list_any (λ v. reaches (store_of self.now).held.book.classes self.now.glossary.records.items v f) (class_names t) }
    {
        let classes = self.vocabulary.classes();
        reach(classes, &self.glossary, term).unwrap_or_else(|_| ClassSet::new())
    }
}
