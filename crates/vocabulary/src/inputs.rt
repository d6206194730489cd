ghost use Rattle.std.specs.Prelude.{◌≡◌, ◌⊎◌, Ok, Err, MatchResult};
ghost use Rattle.expressions.specs.Expression.{term_of};
ghost use Rattle.names.specs.declared.refusals.Refusal.TheVariants.{NoMemory};
ghost use Rattle.terms.specs.Nodes.{name_bytes};
ghost use Rattle.terms.specs.Parse.{reading};
ghost use Rattle.terms.specs.Term.{Spelled};
ghost use Rattle.names.specs.Refusal.{at};
ghost use Rattle.vocabulary.specs.Placing.{name_in, term_in};

use expressions::Expression;
use names::{Fault, Name, Refusal};
use std::alloc::Global;
use terms::check;

// The name in a field, or the fault.
pub fn name_in(field: usize, word: &[u8]) -> Result<Name, Fault>
    ensures { MatchResult result (λ n. name_in field word.now ≡ Ok (name_bytes n)) (λ e. name_in field word.now ≡ Err e) }
{
    Name::new(word).map_err(|place| Refusal::BadName { place }.in_field(field))
}

// Whether a field holds a term, or its fault.
pub(crate) fn check_in(field: usize, text: &[u8]) -> Result<(), Fault>
    ensures { MatchResult result (λ _. (t : Spelled) × (reading text.now ≡ Ok t)) (λ e. term_in field text.now ≡ Err e) }
{
    check(text).map_err(|refusal| refusal.in_field(field))
}

// The term in a field by itself, or the fault. A text that was found to be a term wants memory alone.
pub(crate) fn term_in(heap: Global, field: usize, text: &[u8]) -> Result<Expression, Fault>
    ensures { MatchResult result (λ x. reading text.now ≡ Ok (term_of x)) (λ e. (e ≡ at 0 NoMemory) ⊎ (term_in field text.now ≡ Err e)) }
{
    check_in(field, text)?;
    Ok(Expression::read(heap, text)?)
}
