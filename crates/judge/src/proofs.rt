ghost use Rattle.std.specs.Prelude.{◌≡◌, ◌≤◌, ◌⊎◌, length, take, MatchResult};
ghost use Rattle.terms.specs.Told.{IsRefused};
ghost use Rattle.names.specs.declared.refusals.Refusal.TheVariants.{NoMemory, ShortBuffer};

use expressions::Expression;
use names::Refusal;
use std::alloc::Global;

// Reads a term and writes it back into `out`: how many bytes, which are those that were read.
pub(crate) fn proof(heap: Global, term: &[u8], out: &mut [u8]) -> Result<usize, Refusal>
    ensures { MatchResult result (λ n. (n ≤ length out.new) × (take n out.new ≡ term.now)) (λ e. ((e ≡ NoMemory) ⊎ (e ≡ ShortBuffer)) ⊎ IsRefused term.now e) }
{
    Expression::read(heap, term)?.write(out)
}
