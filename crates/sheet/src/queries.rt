ghost use Rattle.std.specs.Prelude.{◌≡◌, ℕ, ◌⊎◌, List, ◌++◌, length, drop, Ok, Err, MatchResult};
ghost use Rattle.names.specs.declared.refusals.Refusal.TheVariants.{NoMemory};
ghost use Rattle.sheet.specs.Holds.{holds};
ghost use Rattle.vocabulary.specs.Entries.{Queried};
ghost use Rattle.vocabulary.specs.Held.{held_by};
ghost use Rattle.names.specs.Refusal.{at};
ghost use Rattle.vocabulary.specs.Placing.{query_words, spelling};

use crate::sheets::Sheet;
use names::Fault;
use std::alloc::Global;
use vocabulary::Query;

impl Sheet {
    // Reads an item and a term that are asked about. Names and terms that are new have their numbers in the query alone.
    pub fn query(&self, item: &[u8], term: &[u8]) -> Result<Query, Fault>
        ensures { MatchResult result (λ q. Queried (query_words (holds self.now).words item.now term.now) q.item q.term (held_by self.now.page.vocabulary.words) (held_by q.vocabulary.words)) (λ e. (e ≡ at 0 NoMemory) ⊎ (query_words (holds self.now).words item.now term.now ≡ Err e)) }
    {
        self.page.vocabulary.query(item, term)
    }

    // Reads a term as a query's and writes it into a buffer, from its start on: the length. A refusal leaves the buffer as
    // it was.
    pub fn spell(&self, heap: Global, term: &[u8], out: &mut [u8]) -> Result<usize, Fault>
        ensures { MatchResult result (λ n. (w : List ℕ) × (spelling (holds self.now).words term.now (length out.old) ≡ Ok w) × (n ≡ length w) × (out.new ≡ w ++ drop n out.old)) (λ e. ((e ≡ at 0 NoMemory) ⊎ (spelling (holds self.now).words term.now (length out.old) ≡ Err e)) × (out.new ≡ out.old)) }
    {
        self.page.vocabulary.spell(heap, term, out)
    }
}
