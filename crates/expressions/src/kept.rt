ghost use Rattle.std.specs.Prelude.{◌≡◌, ◌<◌, ◌≤◌, length};
ghost use Rattle.expressions.specs.Parts.{Ordered, whole};
ghost use Rattle.terms.specs.Term.{written, depth};

use crate::drafts::Draft;
use crate::parts::Parts;
use crate::writers::Writer;
use names::Refusal;
use std::alloc::Global;
use terms::read;

// A term that stands by itself: its parts, the whole term last, and how many bytes it is written with.
#[derive(Drop)]
pub struct Expression {
    pub(crate) parts: Parts,
    len: usize,
    ghost sorted: { Ordered parts },
    ghost some: { 0 < length parts.nodes.items },
    ghost shallow: { depth (whole parts) ≤ 32 },
    ghost long: { len ≡ length (written (whole parts)) },
}

impl Expression {
    ghost use Rattle.std.specs.Prelude.{◌≡◌, ◌<◌, ◌⊎◌, ◌∷◌, ◌++◌, length, drop, MatchResult};
    ghost use Rattle.expressions.specs.Expression.{term_of};
    ghost use Rattle.terms.specs.Term.{written};
    ghost use Rattle.terms.specs.Told.{IsRead, IsRefused};
    ghost use Rattle.names.specs.declared.refusals.Refusal.TheVariants.{NoMemory, ShortBuffer};

    // Reads a text as a term by itself.
    #[tactic(auto, using(crate::proofs::Expressed::expressed))]
    pub fn read(heap: Global, text: &[u8]) -> Result<Expression, Refusal>
        ensures { MatchResult result (λ x. IsRead text.now (term_of x)) (λ e. (e ≡ NoMemory) ⊎ IsRefused text.now e) }
    {
        let mut draft = Draft::new(heap);
        read(&mut draft, text)?;
        draft.memory?;
        Ok(Expression {
            parts: draft.parts,
            len: text.len(),
        })
    }

    // How many bytes the term is written with.
    pub fn len(&self) -> usize
        ensures { result ≡ length (written (term_of self.now)) }
    {
        self.len
    }

    // Writes the term into a buffer, from its start on, and answers the length. What is written reads back as this term.
    pub fn write(&self, out: &mut [u8]) -> Result<usize, Refusal>
        ensures text { MatchResult result (λ n. (n ≡ length (written (term_of self.now))) × (out.new ≡ written (term_of self.now) ++ drop n out.old)) (λ e. (e ≡ ShortBuffer) × (length out.old < length (written (term_of self.now))) × (out.new ≡ out.old)) }
        ensures back { IsRead (written (term_of self.now)) (term_of self.now) }
    {
        if out.len() < self.len {
            return Err(Refusal::ShortBuffer);
        }
        let mut writer = Writer { out, at: 0 };
        self.write_node(self.parts.nodes.len() - 1, &mut writer);
        Ok(self.len)
    }
}
