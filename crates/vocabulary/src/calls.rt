ghost use Rattle.std.specs.Prelude.{◌≡◌, IfOk};
ghost use Rattle.distinct.specs.Numbering.{place};
ghost use Rattle.terms.specs.Nodes.{name_bytes};
ghost use Rattle.vocabulary.specs.Entries.{GlossAt, StatementAt, TieAt, Told};
ghost use Rattle.vocabulary.specs.Held.{held_by, lexicon};
ghost use Rattle.vocabulary.specs.Lexicon.{none};
ghost use Rattle.vocabulary.specs.Placing.{thus, term_in, gloss_words, state_words, tie_words};

use crate::inputs::{check_in, name_in};
use crate::placed::{PlacedGloss, PlacedStatement, PlacedTie};
use crate::vocabularies::Vocabulary;
use crate::words::Words;
use distinct::Distinct;
use names::{Fault, Name};
use std::alloc::{AllocError, Global};
use terms::Node;

impl Vocabulary {
    // No names and no terms. All memory is taken here.
    pub fn new(heap: Global) -> Result<Vocabulary, AllocError>
        ensures { IfOk result (λ v. lexicon (held_by v.words) ≡ none) }
    {
        let words = Words::new(heap)?;
        Ok(Vocabulary { words })
    }

    // Places the class and the term of a gloss. A refusal leaves the vocabulary as it was.
    pub fn gloss(&mut self, class: Name, term: &[u8]) -> Result<PlacedGloss, Fault>
        ensures { Told (thus (term_in 3 term.now) (λ t. gloss_words (lexicon (held_by self.old.words)) (name_bytes class) t)) result GlossAt (held_by self.old.words) (held_by self.new.words) }
    {
        check_in(3, term)?;
        self.enter(|vocabulary| vocabulary.gloss_steps(class, term))
    }

    // Places the item and the term of a statement, where `room` says whether one more line may be kept. A refusal leaves
    // the vocabulary as it was.
    pub fn statement(
        &mut self,
        item: &[u8],
        term: &[u8],
        room: bool,
    ) -> Result<PlacedStatement, Fault>
        ensures { Told (state_words (lexicon (held_by self.old.words)) item.now term.now room) result StatementAt (held_by self.old.words) (held_by self.new.words) }
    {
        let item = name_in(2, item)?;
        check_in(3, term)?;
        self.enter(|vocabulary| vocabulary.statement_steps(item, term, room))
    }

    // Places the link and the two items of a tie, likewise.
    pub fn tie(
        &mut self,
        link: &[u8],
        from: &[u8],
        to: &[u8],
        room: bool,
    ) -> Result<PlacedTie, Fault>
        ensures { Told (tie_words (lexicon (held_by self.old.words)) link.now from.now to.now room) result TieAt (held_by self.old.words) (held_by self.new.words) }
    {
        let link = name_in(2, link)?;
        let from = name_in(3, from)?;
        let to = name_in(4, to)?;
        self.enter(|vocabulary| vocabulary.tie_steps(link, from, to, room))
    }

    pub fn classes(&self) -> &Distinct<Name>
        ensures { result.now ≡ self.now.words.tables.classes }
    {
        self.words.tables.classes()
    }

    pub fn links(&self) -> &Distinct<Name>
        ensures { result.now ≡ self.now.words.tables.links }
    {
        self.words.tables.links()
    }

    pub fn items(&self) -> &Distinct<Name>
        ensures { result.now ≡ self.now.words.items }
    {
        &self.words.items
    }

    pub fn nodes(&self) -> &[Node]
        ensures { result.now ≡ (held_by self.now.words).book.nodes }
    {
        self.words.tables.nodes()
    }

    // The number of the class with this name, if there is one.
    pub fn find_class(&self, name: &Name) -> Option<usize>
        ensures { result ≡ place (held_by self.now.words).book.classes (name_bytes name.now) }
    {
        self.classes().find(name)
    }
}
