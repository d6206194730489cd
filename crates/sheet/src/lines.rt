ghost use Rattle.std.specs.Prelude.{◌≡◌, ◌+◌, ◌≤◌, length, vec_capacity};
ghost use Rattle.sheet.specs.Counts.{statements_in};
ghost use Rattle.sheet.specs.declared.lines.TheConstants.{STATEMENTS, TIES};

use crate::line::Line;

// As many statements as there may be.
pub(crate) const STATEMENTS: usize = 128;

// As many ties as there may be.
pub(crate) const TIES: usize = 64;

// Statements and ties as they were accepted; the first is line 1. All memory is taken when the list is made.
#[derive(Drop)]
pub(crate) struct Lines {
    pub(crate) items: Vec<Line>,
    // how many of them are statements
    pub(crate) statements: usize,
    ghost counted: { statements_in items.items ≡ statements },
    ghost few: { statements ≤ STATEMENTS },
    ghost rest: { length items.items ≤ statements + TIES },
    ghost room: { STATEMENTS + TIES ≤ vec_capacity items },
}
