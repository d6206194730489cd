ghost use Rattle.tables.specs.Book.{names_of};
ghost use Rattle.terms.specs.Nodes.{name_bytes};
ghost use Rattle.vocabulary.specs.Entries.{IsNumber, IsText, place_text};
ghost use Rattle.vocabulary.specs.Held.{Placed, held_by, lexicon};
ghost use Rattle.vocabulary.specs.Placing.{place_name, place_item};

use crate::vocabularies::Vocabulary;
use names::{Fault, Name, Refusal};
use terms::Sort;

impl Vocabulary {
    // The number of a class or a link, which is put behind the others of its sort where it is new.
    pub(crate) fn place_name(
        &mut self,
        sort: Sort,
        field: usize,
        name: Name,
    ) -> Result<usize, Fault>
        ensures { Placed (place_name sort field (name_bytes name) (lexicon (held_by self.old.words))) result (λ i h. IsNumber i (names_of sort h.book) (name_bytes name)) (held_by self.old.words) (held_by self.new.words) }
    {
        self.words
            .tables
            .add_name(sort, name)
            .ok_or(Refusal::NamesFull.in_field(field))
    }

    // The number of an item, likewise.
    pub(crate) fn place_item(&mut self, field: usize, name: Name) -> Result<usize, Fault>
        ensures { Placed (place_item field (name_bytes name) (lexicon (held_by self.old.words))) result (λ i h. IsNumber i h.items (name_bytes name)) (held_by self.old.words) (held_by self.new.words) }
    {
        self.words
            .items
            .add(name)
            .ok_or(Refusal::NamesFull.in_field(field))
    }

    // The number of a term, whose names and parts are put behind the others where they are new. A line has its term in
    // field 3.
    pub(crate) fn place_term(&mut self, text: &[u8]) -> Result<usize, Fault>
        ensures { Placed (place_text text.now (lexicon (held_by self.old.words))) result (λ i h. IsText i h text.now) (held_by self.old.words) (held_by self.new.words) }
    {
        self.words
            .tables
            .enter(text)
            .map_err(|refusal| refusal.in_field(3))
    }
}
