ghost use Rattle.std.specs.Prelude.{◌≡◌, true, false, Result, MatchResult};
ghost use Rattle.std.specs.Fn.{FnOnceReturnsAtMut};
ghost use Rattle.names.specs.Refusal.{at};
ghost use Rattle.names.specs.declared.refusals.Fault.{Fault};
ghost use Rattle.names.specs.declared.refusals.Refusal.TheVariants.{LinesFull};
ghost use Rattle.terms.specs.Nodes.{name_bytes};
ghost use Rattle.vocabulary.specs.Entries.{GlossAt, StatementAt, TieAt, Stepped, gloss_steps, state_steps, tie_steps};
ghost use Rattle.vocabulary.specs.Held.{Grew, held_by, lexicon};
ghost use Rattle.vocabulary.specs.declared.vocabularies.Vocabulary.{Vocabulary};

use crate::placed::{PlacedGloss, PlacedStatement, PlacedTie};
use crate::vocabularies::Vocabulary;
use names::{Fault, Name, Refusal};
use terms::Sort;

// Whether one more line may be kept, which is asked last of all.
fn check_room(room: bool) -> Result<(), Fault>
    ensures { MatchResult result (λ _. room ≡ true) (λ e. (room ≡ false) × (e ≡ at 1 LinesFull)) }
{
    if room {
        Ok(())
    } else {
        Err(Refusal::LinesFull.in_field(1))
    }
}

impl Vocabulary {
    // Takes the steps of an entry. They stop at the first that is refused, and what came before it is taken back.
    pub(crate) fn enter<P, F: FnOnce(&mut Vocabulary) -> Result<P, Fault>>(
        &mut self,
        steps: F,
    ) -> Result<P, Fault>
        requires calls { F.IsAlwaysCallable steps }
        requires grows { (r : Result P Fault) (v : Vocabulary) → FnOnceReturnsAtMut F.FnOnce steps self.now r v → Grew (held_by self.now.words) (held_by v.words) }
        ensures { (v : Vocabulary) × FnOnceReturnsAtMut F.FnOnce steps self.old result v × MatchResult result (λ _. held_by self.new.words ≡ held_by v.words) (λ _. held_by self.new.words ≡ held_by self.old.words) }
    {
        let mark = self.words.mark();
        let placed = steps(self);
        if placed.is_err() {
            self.words.undo(mark);
        }
        placed
    }

    pub(crate) fn gloss_steps(&mut self, class: Name, term: &[u8]) -> Result<PlacedGloss, Fault>
        ensures { Stepped (gloss_steps (lexicon (held_by self.old.words)) (name_bytes class) term.now) result GlossAt (held_by self.old.words) (held_by self.new.words) }
    {
        let class = self.place_name(Sort::OfClass, 2, class)?;
        let term = self.place_term(term)?;
        Ok(PlacedGloss { class, term })
    }

    pub(crate) fn statement_steps(
        &mut self,
        item: Name,
        term: &[u8],
        room: bool,
    ) -> Result<PlacedStatement, Fault>
        ensures { Stepped (state_steps (lexicon (held_by self.old.words)) (name_bytes item) term.now room) result StatementAt (held_by self.old.words) (held_by self.new.words) }
    {
        let item = self.place_item(2, item)?;
        let term = self.place_term(term)?;
        check_room(room)?;
        Ok(PlacedStatement { item, term })
    }

    pub(crate) fn tie_steps(
        &mut self,
        link: Name,
        from: Name,
        to: Name,
        room: bool,
    ) -> Result<PlacedTie, Fault>
        ensures { Stepped (tie_steps (lexicon (held_by self.old.words)) (name_bytes link) (name_bytes from) (name_bytes to) room) result TieAt (held_by self.old.words) (held_by self.new.words) }
    {
        let link = self.place_name(Sort::OfLink, 2, link)?;
        let from = self.place_item(3, from)?;
        let to = self.place_item(4, to)?;
        check_room(room)?;
        Ok(PlacedTie { link, from, to })
    }
}
