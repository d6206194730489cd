ghost use Rattle.std.specs.Prelude.{◌≡◌, ◌-◌, [], ◌∷◌, ◌++◌, length, true, IfOk, nat_lt};
ghost use Rattle.sheet.specs.Counts.{statements_in, fits};

use crate::line::Line;
use crate::lines::{Lines, STATEMENTS, TIES};
use std::alloc::{AllocError, Global};

impl Lines {
    // No line, with memory for all that there may be.
    pub(crate) fn new(heap: Global) -> Result<Lines, AllocError>
        ensures { IfOk result (λ l. l.items.items ≡ []) }
    {
        Ok(Lines {
            items: Vec::with_capacity(heap, STATEMENTS + TIES)?,
            statements: 0,
        })
    }

    // Is there a place for one more statement?
    pub(crate) fn statement_fits(&self) -> bool
        ensures { result ≡ nat_lt (statements_in self.now.items.items) STATEMENTS }
    {
        self.statements < STATEMENTS
    }

    // Is there a place for one more tie?
    pub(crate) fn tie_fits(&self) -> bool
        ensures { result ≡ nat_lt (length self.now.items.items - statements_in self.now.items.items) TIES }
    {
        self.items.len().saturating_sub(self.statements) < TIES
    }

    // Puts a line that has a place behind the others.
    pub(crate) fn add(&mut self, line: Line)
        requires { fits line self.old.items.items ≡ true }
        ensures { self.new.items.items ≡ self.old.items.items ++ line ∷ [] }
    {
        if line.is_statement() {
            self.statements += 1;
        }
        self.items.push_reserved(line);
    }
}
