ghost use Rattle.std.specs.Prelude.{◌≡◌, IfOk};
ghost use Rattle.sheet.specs.Circles.{CircleLaw, NoCircle};
ghost use Rattle.sheet.specs.Content.{empty};
ghost use Rattle.sheet.specs.History.{Faithful, Repeatable, Lasting};
ghost use Rattle.sheet.specs.Holds.{holds};
ghost use Rattle.sheet.specs.Outcome.{glossing, stating, tying, Told};
ghost use Rattle.terms.specs.Term.{Spelled};

use crate::lines::Lines;
use crate::pages::Page;
use crate::sheets::Sheet;
use glossary::Glossary;
use names::{Fault, Refusal};
use std::alloc::{AllocError, Global};
use vocabulary::{Vocabulary, name_in};

impl Sheet {
    // An empty sheet, with memory for all that it may hold: giving it lines wants no more.
    // Whatever lines it is given then, it holds the accepted ones.
    pub fn new(heap: Global) -> Result<Sheet, AllocError>
        ensures empty { IfOk result (λ s. holds s ≡ empty) }
        ensures histories { Faithful × Repeatable × Lasting }
    {
        let page = Page {
            vocabulary: Vocabulary::new(heap)?,
            glossary: Glossary::new(heap)?,
            lines: Lines::new(heap)?,
        };
        Ok(Sheet { page })
    }

    // Defines a class by a term. A refusal changes nothing.
    pub fn gloss(&mut self, class: &[u8], term: &[u8]) -> Result<(), Fault>
        ensures told { Told (glossing (holds self.old) class.now term.now) result (holds self.old) (holds self.new) }
        ensures circles { ((t : Spelled) → CircleLaw (holds self.old) class.now t) × NoCircle (holds self.new) }
    {
        let name = name_in(2, class)?;
        let circle = self.page.makes_circle(&name, term)?;
        if self.page.has_gloss(&name) {
            return Err(Refusal::GlossedAlready.in_field(2));
        }
        if circle {
            return Err(Refusal::Circle.in_field(3));
        }
        let placed = self.page.vocabulary.gloss(name, term)?;
        let reach = self.page.reach_of(term);
        self.page.glossary.define(placed.class, placed.term, &reach);
        Ok(())
    }

    // States a term of an item.
    pub fn state(&mut self, item: &[u8], term: &[u8]) -> Result<(), Fault>
        ensures told { Told (stating (holds self.old) item.now term.now) result (holds self.old) (holds self.new) }
    {
        let room = self.page.lines.statement_fits();
        let placed = self.page.vocabulary.statement(item, term, room)?;
        self.page.lines.add(placed.into());
        Ok(())
    }

    // Ties two items by a link.
    pub fn tie(&mut self, link: &[u8], from: &[u8], to: &[u8]) -> Result<(), Fault>
        ensures told { Told (tying (holds self.old) link.now from.now to.now) result (holds self.old) (holds self.new) }
    {
        let room = self.page.lines.tie_fits();
        let placed = self.page.vocabulary.tie(link, from, to, room)?;
        self.page.lines.add(placed.into());
        Ok(())
    }
}
