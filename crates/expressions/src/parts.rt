ghost use Rattle.std.specs.Prelude.{◌≡◌, ◌<◌, length};
ghost use Rattle.expressions.specs.Parts.{name_of};

use names::Name;
use terms::Node;

// The names and nodes of one term. A node tells its names and parts by their numbers.
#[derive(Drop)]
pub(crate) struct Parts {
    pub(crate) classes: Vec<Name>,
    pub(crate) links: Vec<Name>,
    pub(crate) nodes: Vec<Node>,
}

// The bytes of name `k`.
pub(crate) fn name_at(names: &[Name], k: usize) -> &[u8]
    requires { k < length names.now }
    ensures { result.now ≡ name_of names.now k }
{
    names[k].as_slice()
}
