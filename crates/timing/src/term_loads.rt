ghost use Rattle.std.specs.Prelude.{◌≡◌, ◌⊎◌, length};

use crate::loads::Load;
use expressions::Expression;
use std::alloc::{AllocError, Global};

// Reading a term and writing it back.
pub struct Terms;

impl Load for Terms {
    const TEXTS: &'static str = "terms";

    const UNITS: &'static str = "bytes";

    // A balanced term over different classes, 8 bytes a class: each `&` is followed by its parts. The size is a power of
    // two.
    fn text(heap: Global, size: usize) -> Result<String, AllocError> {
        let mut text = String::new(heap);
        let classes = size / 8;
        for i in 0..classes {
            if i > 0 {
                text.push_str(" ")?;
            }
            let operators = if i > 0 { i } else { classes }.trailing_zeros();
            text.push_str("& ".repeat(heap, operators as usize)?.as_str())?;
            write!(text, "N{i:04x}")?;
        }
        Ok(text)
    }

    // All its bytes are written back, or none.
    ghost comes = { λ text n. (n ≡ length text) ⊎ (n ≡ 0) };

    fn work(heap: Global, text: &[u8]) -> usize {
        let mut out = [0u8; 16384];
        Expression::read(heap, text)
            .and_then(|expression| expression.write(&mut out))
            .unwrap_or(0)
    }
}
