ghost use Rattle.std.specs.Prelude.{◌<◌, ◌++◌, length};
ghost use Rattle.expressions.specs.Parts.{Spells, name_of, text_at};
ghost use Rattle.expressions.specs.Writer.{Room, Added};

use crate::kept::Expression;
use crate::parts::name_at;
use terms::Node;

// Bytes go into a buffer, each piece behind the last, from `at` on.
#[derive(Drop)]
pub(crate) struct Writer<'a> {
    pub(crate) out: &'a mut [u8],
    pub(crate) at: usize,
}

impl<'a> Writer<'a> {
    pub(crate) fn put(&mut self, bytes: &[u8])
        requires { Room self.old bytes.now }
        ensures { Added self.old bytes.now self.new }
    {
        let end = self.at + bytes.len();
        self.out[self.at..end].copy_from_slice(bytes);
        self.at = end;
    }
}

#[tactic(auto, using(crate::proofs::Buffers::rooms))]
impl Expression {
    // The node at place `i`.
    #[tactic(auto, using(crate::proofs::Writing::spells))]
    fn node(&self, i: usize) -> Node
        requires { i < length self.now.parts.nodes.items }
        ensures { Spells self.now.parts i result }
    {
        self.parts.nodes[i]
    }

    // Puts `head` and the name of link `l`.
    fn put_link(&self, head: &[u8], l: usize, writer: &mut Writer)
        requires known { l < length self.now.parts.links.items }
        requires room { Room writer.old (head.now ++ name_of self.now.parts.links.items l) }
        ensures { Added writer.old (head.now ++ name_of self.now.parts.links.items l) writer.new }
    {
        writer.put(head);
        writer.put(name_at(&self.parts.links, l));
    }

    // Writes node `i`.
    #[cycle(write_behind_write_node)]
    pub(crate) fn write_node(&self, i: usize, writer: &mut Writer)
        requires within { i < length self.now.parts.nodes.items }
        requires room { Room writer.old (text_at self.now.parts i) }
        ensures { Added writer.old (text_at self.now.parts i) writer.new }
    {
        match self.node(i) {
            Node::Bottom => writer.put(b"!"),
            Node::Top => writer.put(b"*"),
            Node::Class(c) => writer.put(name_at(&self.parts.classes, c)),
            Node::Not(a) => self.write_behind(b"- ", a, writer),
            Node::And(a, b) => {
                self.write_behind(b"& ", a, writer);
                self.write_behind(b" ", b, writer);
            }
            Node::Or(a, b) => {
                self.write_behind(b"| ", a, writer);
                self.write_behind(b" ", b, writer);
            }
            Node::Exists(l, a) => {
                self.put_link(b"+ ", l, writer);
                self.write_behind(b" ", a, writer);
            }
            Node::Forall(l, a) => {
                self.put_link(b"= ", l, writer);
                self.write_behind(b" ", a, writer);
            }
            Node::May(reader, a) => self.write_behind(&[b'<', b'0' + reader, b' '], a, writer),
            Node::Must(reader, a) => self.write_behind(&[b'[', b'0' + reader, b' '], a, writer),
        }
    }

    // Writes node `i` behind the bytes of `head`.
    #[cycle(write_behind_write_node)]
    fn write_behind(&self, head: &[u8], i: usize, writer: &mut Writer)
        requires within { i < length self.now.parts.nodes.items }
        requires room { Room writer.old (head.now ++ text_at self.now.parts i) }
        ensures { Added writer.old (head.now ++ text_at self.now.parts i) writer.new }
    {
        writer.put(head);
        self.write_node(i, writer);
    }
}
