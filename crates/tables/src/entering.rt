ghost use Rattle.std.specs.Prelude.{◌≡◌, ℕ, ◌⊎◌, map, length, IfErr, Ok, Err, MatchResult};
ghost use Rattle.tables.specs.Book.{book_of};
ghost use Rattle.tables.specs.Entered.{IsEntered};
ghost use Rattle.tables.specs.Entry.{Entry};
ghost use Rattle.tables.specs.Undo.{cut, Refuses, Lacks};
ghost use Rattle.terms.specs.Term.{Spelled};
ghost use Rattle.terms.specs.Told.{IsRead, IsRefused};
ghost use Rattle.tables.specs.Enters.{Within, Orderly, Enters};
ghost use Rattle.tables.specs.Texts.{entering};

use crate::building::Building;
use crate::tables::{Mark, Tables};
use names::Refusal;
use terms::check;

impl Tables {
    // Reads a text as a term and enters its names and parts, as far as they find places.
    fn build(&mut self, text: &[u8]) -> Result<usize, Refusal>
        ensures { MatchResult result (λ i. (t : Spelled) × IsRead text.now t × IsEntered t (book_of self.old) i (book_of self.new)) (λ e. IsRefused text.now e ⊎ Lacks text.now (book_of self.old) e (book_of self.new)) }
    {
        let mut building = Building {
            tables: self,
            names_full: false,
            terms_full: false,
        };
        let number = building.read_term(text)?;
        if building.names_full {
            return Err(Refusal::NamesFull);
        }
        if building.terms_full {
            return Err(Refusal::TermsFull);
        }
        Ok(number)
    }

    pub fn mark(&self) -> Mark
        ensures classes { result.classes ≡ length self.now.classes.items.items }
        ensures links { result.links ≡ length self.now.links.items.items }
        ensures nodes { result.nodes ≡ length self.now.nodes.items.items }
        ensures book { (result.classes ≡ length (book_of self.now).classes) × (result.links ≡ length (book_of self.now).links) × (result.nodes ≡ length (book_of self.now).nodes) }
    {
        Mark {
            classes: self.classes.len(),
            links: self.links.len(),
            nodes: self.nodes.len(),
        }
    }

    // Takes back what came since the mark.
    pub fn undo(&mut self, mark: Mark)
        ensures { book_of self.new ≡ cut mark (book_of self.old) }
    {
        self.classes.truncate(mark.classes);
        self.links.truncate(mark.links);
        self.nodes.truncate(mark.nodes);
    }

    // Reads a text as a term and enters its names and parts, each once: the term's number. A refusal leaves the tables as
    // they were.
    pub fn enter(&mut self, text: &[u8]) -> Result<usize, Refusal>
        ensures steps { MatchResult result (λ i. (t : Spelled) × IsRead text.now t × Entry t (book_of self.old) i (book_of self.new)) (λ e. Refuses text.now (book_of self.old) e × (book_of self.new ≡ book_of self.old)) }
        ensures law { Orderly (book_of self.old) → Within (book_of self.old) → MatchResult result (λ i. (t : Spelled) × IsRead text.now t × (entering (book_of self.old) text.now ≡ Ok t) × Enters (book_of self.old) t i (book_of self.new)) (λ e. entering (book_of self.old) text.now ≡ Err e) }
        ensures kept { IfErr result (λ e. book_of self.new ≡ book_of self.old) }
    {
        check(text)?;
        let mark = self.mark();
        let entered = self.build(text);
        if entered.is_err() {
            self.undo(mark);
        }
        entered
    }
}
