ghost use Rattle.std.specs.Prelude.{ℕ, List, take};
ghost use Rattle.terms.specs.declared.nodes.Node.{Node};
ghost use Rattle.terms.specs.declared.nodes.Sort.{Sort};

use crate::nodes::{Node, Sort};
use names::Name;

// What is made of a term while it is read: each name and each node gets a number, from left to right, parts before
// wholes. A builder never refuses: one that has no room remembers that, and answers any number.
pub trait Builder {
    // in this state this name of this sort gets this number, which leaves that state
    ghost labels: { Self → Sort → List ℕ → ℕ → Self → Type 0 };

    ghost makes: { Self → Node → ℕ → Self → Type 0 };

    fn label(&mut self, sort: Sort, name: Name) -> usize
        ensures { labels self.old sort (take name.len name.bytes) result self.new };

    fn node(&mut self, node: Node) -> usize
        ensures { makes self.old node result self.new };
}
