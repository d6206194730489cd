ghost use Rattle.std.specs.Prelude.{◌≡◌};
ghost use Rattle.vocabulary.specs.Held.{Held, Grew, held_by};
ghost use Rattle.vocabulary.specs.Marks.{MarkOf};

use crate::words::{Mark, Words};

impl Words {
    pub(crate) fn mark(&self) -> Mark
        ensures { MarkOf result (held_by self.now) }
    {
        Mark {
            tables: self.tables.mark(),
            items: self.items.len(),
        }
    }

    // Takes back what came since the mark.
    pub(crate) fn undo(&mut self, mark: Mark)
        ensures { (h : Held) → MarkOf mark h → Grew h (held_by self.old) → held_by self.new ≡ h }
    {
        self.tables.undo(mark.tables);
        self.items.truncate(mark.items);
    }
}
