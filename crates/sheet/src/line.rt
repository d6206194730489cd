ghost use Rattle.std.specs.Prelude.{◌≡◌};
ghost use Rattle.sheet.specs.Counts.{is_statement};
ghost use Rattle.sheet.specs.declared.line.Line.TheVariants.{Statement, Tie};

use vocabulary::{PlacedStatement, PlacedTie};

// A line that says something of items, over numbers.
#[derive(Clone, Copy, Debug, PartialEq, Eq)]
pub enum Line {
    // this term is true of this item
    Statement { item: usize, term: usize },
    // this link joins the first item to the second
    Tie { link: usize, from: usize, to: usize },
}

impl Line {
    pub(crate) fn is_statement(&self) -> bool
        ensures { result ≡ is_statement self.now }
    {
        matches!(self, Line::Statement { .. })
    }
}

impl From<PlacedStatement> for Line {
    ghost from_gives = { λ p l. l ≡ Statement p.item p.term };

    fn from(placed: PlacedStatement) -> Line {
        Line::Statement {
            item: placed.item,
            term: placed.term,
        }
    }
}

impl From<PlacedTie> for Line {
    ghost from_gives = { λ p l. l ≡ Tie p.link p.from p.to };

    fn from(placed: PlacedTie) -> Line {
        Line::Tie {
            link: placed.link,
            from: placed.from,
            to: placed.to,
        }
    }
}
