ghost use Rattle.std.specs.Prelude.{◌≡◌, [], ◌∷◌, ◌++◌, length, Ok};
ghost use Rattle.expressions.specs.Draft.{Labels, Makes};

use crate::parts::Parts;
use names::Name;
use std::alloc::{AllocError, Global};
use terms::{Builder, Node, Sort};

// A term's parts while it is read, each occurrence of a name with a number of its own, so that reading is linear.
#[derive(Drop)]
pub(crate) struct Draft {
    pub(crate) parts: Parts,
    // whether there was memory for all of them
    pub(crate) memory: Result<(), AllocError>,
}

impl Draft {
    pub(crate) fn new(heap: Global) -> Draft
        ensures { (result.parts.classes.items ≡ []) × (result.parts.links.items ≡ []) × (result.parts.nodes.items ≡ []) × (result.memory ≡ Ok tt) }
    {
        Draft {
            parts: Parts {
                classes: Vec::new(heap),
                links: Vec::new(heap),
                nodes: Vec::new(heap),
            },
            memory: Ok(()),
        }
    }
}

// Puts an item behind the others and answers its number; a want of memory is remembered.
fn keep<T: Copy>(items: &mut Vec<T>, item: T, memory: &mut Result<(), AllocError>) -> usize
    ensures { memory.new ≡ Ok tt → (memory.old ≡ Ok tt) × (result ≡ length items.old.items) × (items.new.items ≡ items.old.items ++ item ∷ []) }
{
    let number = items.len();
    if let Err(failed) = items.push(item) {
        *memory = Err(failed.into());
    }
    number
}

impl Builder for Draft {
    ghost labels = { Labels };

    ghost makes = { Makes };

    fn label(&mut self, sort: Sort, name: Name) -> usize {
        match sort {
            Sort::OfClass => keep(&mut self.parts.classes, name, &mut self.memory),
            Sort::OfLink => keep(&mut self.parts.links, name, &mut self.memory),
        }
    }

    fn node(&mut self, node: Node) -> usize {
        keep(&mut self.parts.nodes, node, &mut self.memory)
    }
}
