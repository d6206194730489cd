ghost use Rattle.std.specs.Prelude.{◌≡◌, [], IfOk};
ghost use Rattle.distinct.specs.Numbering.{added};
ghost use Rattle.tables.specs.Book.{book_of, names_of, limit_of, book_with, HoldsSame};
ghost use Rattle.terms.specs.Nodes.{name_bytes};

use distinct::Distinct;
use names::Name;
use std::alloc::{AllocError, Global};
use terms::{Node, Sort};

// Class names, link names and nodes, each kept once under its number.
#[derive(Drop)]
pub struct Tables {
    pub(crate) classes: Distinct<Name>,
    pub(crate) links: Distinct<Name>,
    pub(crate) nodes: Distinct<Node>,
}

// How far the tables had come.
#[derive(Clone, Copy, Debug, PartialEq, Eq)]
pub struct Mark {
    pub(crate) classes: usize,
    pub(crate) links: usize,
    pub(crate) nodes: usize,
}

impl Tables {
    // Empty tables, with memory for as many entries as they may have.
    pub fn new(heap: Global) -> Result<Tables, AllocError>
        ensures empty { IfOk result (λ s. (s.classes.items.items ≡ []) × (s.links.items.items ≡ []) × (s.nodes.items.items ≡ [])) }
        ensures limits { IfOk result (λ s. (s.classes.limit ≡ 64) × (s.links.limit ≡ 16) × (s.nodes.limit ≡ 256)) }
    {
        Ok(Tables {
            classes: Distinct::new(heap, 64)?,
            links: Distinct::new(heap, 16)?,
            nodes: Distinct::new(heap, 256)?,
        })
    }

    pub fn classes(&self) -> &Distinct<Name>
        ensures { result.now ≡ self.now.classes }
    {
        &self.classes
    }

    pub fn links(&self) -> &Distinct<Name>
        ensures { result.now ≡ self.now.links }
    {
        &self.links
    }

    pub fn nodes(&self) -> &[Node]
        ensures { result.now ≡ self.now.nodes.items.items }
    {
        self.nodes.as_slice()
    }

    // The number of a name of that sort, which is added where it is new and there is a place; none, and nothing changes,
    // where there is no place.
    pub fn add_name(&mut self, sort: Sort, name: Name) -> Option<usize>
        ensures value { result ≡ added (names_of sort (book_of self.old)) (limit_of sort (book_of self.old)) (name_bytes name) }
        ensures book { book_of self.new ≡ book_with sort (name_bytes name) (book_of self.old) }
    {
        match sort {
            Sort::OfClass => self.classes.add(name),
            Sort::OfLink => self.links.add(name),
        }
    }
}

// A copy holds the same, in memory of its own.
impl Clone for Tables {
    ghost is_clone = { HoldsSame };

    fn clone(&self) -> Result<Tables, AllocError> {
        Ok(Tables {
            classes: self.classes.clone()?,
            links: self.links.clone()?,
            nodes: self.nodes.clone()?,
        })
    }
}
