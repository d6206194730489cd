ghost use Rattle.cases.specs.Case.{TermShows};

use crate::kinds::Kind;
use expressions::Expression;
use std::alloc::{AllocError, Global};

// As many bytes as a term may be written back into.
pub const LIMIT: usize = 16384;

// A term, and `ok` or a refusal's number and place. One that reads is also written back.
pub struct Terms;

impl Kind for Terms {
    ghost shows = { TermShows };

    fn agrees(heap: Global, given: &[u8], expected: &[u8]) -> Result<bool, AllocError> {
        match Expression::read(heap, given) {
            Ok(term) => Ok(expected == b"ok".as_slice() && is_written_back(given, &term)),
            Err(refusal) => {
                let told = format!(in heap; "{} {}", refusal.number(), refusal.place())?;
                Ok(expected == told.as_bytes())
            }
        }
    }
}

fn is_written_back(text: &[u8], term: &Expression) -> bool {
    let mut out = [0u8; LIMIT];
    term.write(&mut out)
        .is_ok_and(|n| out.get(..n) == Some(text))
}
