ghost use Rattle.std.specs.Prelude.{◌≡◌, IfOk};
ghost use Rattle.vocabulary.specs.Held.{InOrder, held_by, lexicon};
ghost use Rattle.vocabulary.specs.Lexicon.{none};

use crate::words::Words;
use distinct::Distinct;
use std::alloc::{AllocError, Global};
use tables::Tables;

impl Words {
    // No names and no terms, with memory for as many as there may be.
    pub(crate) fn new(heap: Global) -> Result<Words, AllocError>
        ensures { IfOk result (λ w. (lexicon (held_by w) ≡ none) × InOrder (held_by w)) }
    {
        Ok(Words {
            tables: Tables::new(heap)?,
            items: Distinct::new(heap, 32)?,
        })
    }
}
