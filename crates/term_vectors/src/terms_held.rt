ghost use Rattle.term_vectors.specs.Held.{AnyTermShows};

use cases::{Kind, LIMIT, Terms};
use expressions::Expression;
use std::alloc::{AllocError, Global};

// A term, and what is expected of it in `Terms`, or `no room` where it reads and is too long to be written back.
pub(crate) struct AnyTerms;

impl Kind for AnyTerms {
    ghost shows = { AnyTermShows };

    fn agrees(heap: Global, given: &[u8], expected: &[u8]) -> Result<bool, AllocError> {
        if expected == b"no room".as_slice() {
            return Ok(given.len() > LIMIT && Expression::read(heap, given).is_ok());
        }
        Terms::agrees(heap, given, expected)
    }
}
