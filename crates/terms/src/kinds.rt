ghost use Rattle.std.specs.Prelude.{◌≡◌, Decides};
ghost use Rattle.terms.specs.Kinds.{show_node};

use crate::nodes::Node;
use distinct::Alike;

// Two nodes are alike when they are the same.
impl Alike for Node {
    ghost shown = { show_node };

    fn alike(&self, other: &Node) -> bool {
        *self == *other
    }
}
