ghost use Rattle.std.specs.Prelude.{◌≡◌};
ghost use Rattle.terms.specs.Forms.{join_node, quantifier_node, modal_node};

use crate::nodes::Node;

// Operators, by the parts that they take; and the words of a term.
#[derive(Clone, Copy, Debug, PartialEq, Eq)]
pub enum Join {
    And,
    Or,
}

impl Join {
    pub(crate) fn node(self, left: usize, right: usize) -> Node
        ensures { result ≡ join_node self left right }
    {
        match self {
            Join::And => Node::And(left, right),
            Join::Or => Node::Or(left, right),
        }
    }
}

#[derive(Clone, Copy, Debug, PartialEq, Eq)]
pub enum Quantifier {
    // some item linked so
    Exists,
    // every item linked so
    Forall,
}

impl Quantifier {
    pub(crate) fn node(self, link: usize, part: usize) -> Node
        ensures { result ≡ quantifier_node self link part }
    {
        match self {
            Quantifier::Exists => Node::Exists(link, part),
            Quantifier::Forall => Node::Forall(link, part),
        }
    }
}

#[derive(Clone, Copy, Debug, PartialEq, Eq)]
pub enum Modality {
    // in some reading that the reader admits
    May,
    // in every reading that the reader admits
    Must,
}

impl Modality {
    pub(crate) fn node(self, reader: u8, part: usize) -> Node
        ensures { result ≡ modal_node self reader part }
    {
        match self {
            Modality::May => Node::May(reader, part),
            Modality::Must => Node::Must(reader, part),
        }
    }
}

// An operator that is one character.
#[derive(Clone, Copy, Debug, PartialEq, Eq)]
pub enum Operator {
    Top,
    Bottom,
    Not,
    Join(Join),
    Quantifier(Quantifier),
}

// A word of a term: an operator, a reader's operator with the reader's number, or a name.
// A name's bytes are part of the text that came in, and `place` is where they stand in it.
#[derive(Clone, Copy, Debug, PartialEq, Eq)]
pub enum Token<'a> {
    Operator(Operator),
    Reader(Modality, u8),
    Name { bytes: &'a [u8], place: usize },
}
