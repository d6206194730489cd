ghost use Rattle.std.specs.Prelude.{◌≡◌, MatchResult};
ghost use Rattle.tables.specs.Book.{Labels, Makes};
ghost use Rattle.tables.specs.Building.{built};
ghost use Rattle.tables.specs.Entered.{IsEntered};
ghost use Rattle.terms.specs.Term.{Spelled};
ghost use Rattle.terms.specs.Told.{IsRead, IsRefused};

use crate::tables::Tables;
use names::{Name, Refusal};
use terms::{Builder, Node, Sort, read};

// The tables while a term is read into them, and whether a name or a node that was new found no place.
#[derive(Drop)]
pub(crate) struct Building<'a> {
    pub(crate) tables: &'a mut Tables,
    pub(crate) names_full: bool,
    pub(crate) terms_full: bool,
}

impl Building<'_> {
    // Reads a text as a term and enters its names and parts, as far as they find places.
    pub(crate) fn read_term(&mut self, text: &[u8]) -> Result<usize, Refusal>
        ensures { MatchResult result (λ i. (t : Spelled) × IsRead text.now t × IsEntered t (built self.old) i (built self.new) × (self.new.tables.ghost_name ≡ self.old.tables.ghost_name)) (λ e. IsRefused text.now e) }
    {
        read(self, text)
    }
}

impl Builder for Building<'_> {
    ghost labels = { λ s k w i t. Labels (built s) k w i (built t) × (t.tables.ghost_name ≡ s.tables.ghost_name) };

    ghost makes = { λ s n i t. Makes (built s) n i (built t) × (t.tables.ghost_name ≡ s.tables.ghost_name) };

    fn label(&mut self, sort: Sort, name: Name) -> usize {
        let number = self.tables.add_name(sort, name);
        self.names_full |= number.is_none();
        number.unwrap_or(0)
    }

    fn node(&mut self, node: Node) -> usize {
        let number = self.tables.nodes.add(node);
        self.terms_full |= number.is_none();
        number.unwrap_or(0)
    }
}
