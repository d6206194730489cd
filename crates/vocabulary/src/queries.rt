ghost use Rattle.std.specs.Prelude.{◌≡◌, ℕ, ◌⊎◌, List, ◌++◌, length, drop, Ok, Err, IfOk, MatchResult};
ghost use Rattle.names.specs.declared.refusals.Refusal.TheVariants.{NoMemory};
ghost use Rattle.vocabulary.specs.Entries.{Queried};
ghost use Rattle.vocabulary.specs.Held.{held_by, lexicon};
ghost use Rattle.names.specs.Refusal.{at};
ghost use Rattle.vocabulary.specs.Placing.{query_words, spelling};

use crate::inputs::term_in;
use crate::vocabularies::Vocabulary;
use names::Fault;
use std::alloc::{AllocError, Global};

// A query's item and term, placed in a vocabulary of its own.
#[derive(Drop)]
pub struct Query {
    pub vocabulary: Vocabulary,
    pub item: usize,
    pub term: usize,
}

// A copy holds the same, in memory of its own.
impl Clone for Vocabulary {
    ghost is_clone = { λ old new. held_by new.words ≡ held_by old.words };

    fn clone(&self) -> Result<Vocabulary, AllocError> {
        let words = self.words.clone()?;
        Ok(Vocabulary { words })
    }
}

impl Vocabulary {
    // Places the item and the term of a query in a working copy: the vocabulary itself stays as it is.
    pub fn query(&self, item: &[u8], term: &[u8]) -> Result<Query, Fault>
        ensures { MatchResult result (λ q. Queried (query_words (lexicon (held_by self.now.words)) item.now term.now) q.item q.term (held_by self.now.words) (held_by q.vocabulary.words)) (λ e. (e ≡ at 0 NoMemory) ⊎ (query_words (lexicon (held_by self.now.words)) item.now term.now ≡ Err e)) }
    {
        let mut vocabulary = self.clone()?;
        let placed = vocabulary.statement(item, term, true)?;
        Ok(Query {
            vocabulary,
            item: placed.item,
            term: placed.term,
        })
    }

    // Reads a term as a query's, and writes it into a buffer, from its start on: the length. A refusal leaves the buffer as
    // it was, since all memory is taken before it is written to.
    pub fn spell(&self, heap: Global, term: &[u8], out: &mut [u8]) -> Result<usize, Fault>
        ensures { MatchResult result (λ n. (w : List ℕ) × (spelling (lexicon (held_by self.now.words)) term.now (length out.old) ≡ Ok w) × (n ≡ length w) × (out.new ≡ w ++ drop n out.old)) (λ e. ((e ≡ at 0 NoMemory) ⊎ (spelling (lexicon (held_by self.now.words)) term.now (length out.old) ≡ Err e)) × (out.new ≡ out.old)) }
    {
        let expression = term_in(heap, 3, term)?;
        let mut vocabulary = self.clone()?;
        vocabulary.place_term(term)?;
        Ok(expression.write(out)?)
    }
}
