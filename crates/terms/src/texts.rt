ghost use Rattle.std.specs.Prelude.{MatchResult};
ghost use Rattle.terms.specs.Built.{Built};
ghost use Rattle.terms.specs.Term.{Spelled};
ghost use Rattle.terms.specs.Told.{IsRead, IsRefused};

use crate::builders::Builder;
use crate::readers::term;
use crate::rests::Rest;
use names::Refusal;

// Words may be nested this deep; the outermost is 1 deep.
const DEPTH: usize = 32;

// Reads a text as a term, from left to right, and has `builder` number its names and nodes: the term's own number,
// or the fault at the leftmost place.
pub fn read<B: Builder>(builder: &mut B, text: &[u8]) -> Result<usize, Refusal>
    ensures { MatchResult result (λ i. (t : Spelled) × IsRead text.now t × Built B.labels B.makes t builder.old i builder.new) (λ e. IsRefused text.now e) }
{
    let mut rest = Rest::new(text)?;
    let number = term(builder, &mut rest, DEPTH)?;
    rest.finish()?;
    Ok(number)
}
