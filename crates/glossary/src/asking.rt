ghost use Rattle.std.specs.Prelude.{◌≡◌, ◌||◌, map, MatchResult};
ghost use Rattle.distinct.specs.Numbering.{number};
ghost use Rattle.std.specs.List.{list_any};
ghost use Rattle.glossary.specs.Asked.{circles};
ghost use Rattle.glossary.specs.Sees.{FinderSees};
ghost use Rattle.tables.specs.Vocabulary.{class_names};
ghost use Rattle.terms.specs.Nodes.{name_bytes};
ghost use Rattle.terms.specs.Term.{Spelled};
ghost use Rattle.terms.specs.Told.{IsRead, IsRefused};

use crate::table::Glossary;
use crate::visiting::{Visitor, visit};
use distinct::Distinct;
use names::{Name, Refusal};

// The number of a class: its place among the classes, or how many there are where it is new.
pub fn number_of(classes: &Distinct<Name>, class: &Name) -> usize
    ensures { result ≡ number (map name_bytes classes.now.items.items) (name_bytes class.now) }
{
    classes.find(class).unwrap_or(classes.len())
}

// Looks for a name of a class that is `class` or refers to it.
#[derive(Drop)]
struct CircleFinder<'a> {
    classes: &'a Distinct<Name>,
    glossary: &'a Glossary,
    class: &'a Name,
    found: bool,
}

impl<'a> Visitor for CircleFinder<'a> {
    ghost sees = { FinderSees };

    fn see(&mut self, class: &Name) {
        if *class == *self.class
            || self.glossary.refers(
                number_of(self.classes, class),
                number_of(self.classes, self.class),
            )
        {
            self.found = true;
        }
    }
}

// Whether a gloss of `class` by this text would make a circle: a class of the term is `class`, or refers to it.
pub fn circular<'a>(
    classes: &'a Distinct<Name>,
    glossary: &'a Glossary,
    class: &'a Name,
    text: &[u8],
) -> Result<bool, Refusal>
    ensures { MatchResult result (λ b. (t : Spelled) × IsRead text.now t × (b ≡ list_any (circles (map name_bytes classes.now.items.items) glossary.now.records.items (name_bytes class.now)) (class_names t))) (λ e. IsRefused text.now e) }
{
    let finder = CircleFinder {
        classes,
        glossary,
        class,
        found: false,
    };
    Ok(visit(text, finder)?.found)
}
