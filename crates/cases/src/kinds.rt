ghost use Rattle.std.specs.Prelude.{ℕ, List, IfOk, IsTrue};
ghost use Rattle.cases.specs.Case.{IsShown};

use crate::hex_digits::decoded;
use cut::{behind, piece_length};
use std::alloc::{AllocError, Global};

// A kind of case.
pub trait Kind {
    // What a case that agrees shows of what is given and what is expected.
    ghost shows: { List ℕ → List ℕ → Type 0 };

    // Does what is given come to what is expected of it?
    fn agrees(heap: Global, given: &[u8], expected: &[u8]) -> Result<bool, AllocError>
        ensures { IfOk result (λ b. IsTrue b → shows given.now expected.now) };

    // Does the case of a line agree?
    final fn line_agrees(heap: Global, line: &[u8]) -> Result<bool, AllocError>
        ensures { IfOk result (λ b. IsTrue b → IsShown shows line.now) }
    {
        let n = piece_length(line, b'\t');
        let given = decoded(heap, &line[..n])?;
        Self::agrees(heap, given.as_slice(), behind(line, n))
    }
}
