ghost use Rattle.std.specs.Prelude.{◌≡◌, ℕ};
ghost use Rattle.terms.specs.Outcome.{Outcome, Outermost};
ghost use Rattle.terms.specs.Parse.{parse, part as next_part, operated};

use crate::builders::Builder;
use crate::nodes::{Node, Sort};
use crate::rests::{Rest, Word};
use crate::tokens::token;
use crate::words::{Operator, Token};
use names::Refusal;

// Reads the term at the start of `rest`, where words may still be nested `room` deep.
#[cycle(operation_outermost_part_term)]
pub(crate) fn term<B: Builder>(
    builder: &mut B,
    rest: &mut Rest<'_>,
    room: usize,
) -> Result<usize, Refusal>
    ensures { Outcome B.labels B.makes (λ total. parse total room) rest.old builder.old result rest.new builder.new }
{
    let node = outermost(builder, rest, room)?;
    Ok(builder.node(node))
}

// Reads a term but for its outermost node, which is still to be numbered.
#[cycle(operation_outermost_part_term)]
fn outermost<B: Builder>(builder: &mut B, rest: &mut Rest<'_>, room: usize) -> Result<Node, Refusal>
    ensures { Outermost B.labels B.makes (λ total. parse total room) rest.old builder.old result rest.new builder.new }
{
    if room == 0 {
        return Err(Refusal::TooDeep {
            place: rest.place(),
        });
    }
    match token(rest.take_word())? {
        Token::Name { bytes, place } => {
            let name = Word { bytes, place }.name()?;
            Ok(Node::Class(builder.label(Sort::OfClass, name)))
        }
        Token::Reader(modality, reader) => {
            let a = part(builder, rest, room - 1)?;
            Ok(modality.node(reader, a))
        }
        Token::Operator(operator) => operation(builder, operator, rest, room - 1),
    }
}

// The same of a term that an operator begins.
#[cycle(operation_outermost_part_term)]
fn operation<B: Builder>(
    builder: &mut B,
    operator: Operator,
    rest: &mut Rest<'_>,
    room: usize,
) -> Result<Node, Refusal>
    ensures { Outermost B.labels B.makes (λ total bytes. operated total (parse total room) bytes operator) rest.old builder.old result rest.new builder.new }
{
    match operator {
        Operator::Top => Ok(Node::Top),
        Operator::Bottom => Ok(Node::Bottom),
        Operator::Not => {
            let a = part(builder, rest, room)?;
            Ok(Node::Not(a))
        }
        Operator::Join(join) => {
            let a = part(builder, rest, room)?;
            let b = part(builder, rest, room)?;
            Ok(join.node(a, b))
        }
        Operator::Quantifier(quantifier) => {
            rest.skip_gap()?;
            let name = rest.take_word().name()?;
            let link = builder.label(Sort::OfLink, name);
            let a = part(builder, rest, room)?;
            Ok(quantifier.node(link, a))
        }
    }
}

// Reads the next part, behind a word or another part.
#[cycle(operation_outermost_part_term)]
fn part<B: Builder>(builder: &mut B, rest: &mut Rest<'_>, room: usize) -> Result<usize, Refusal>
    ensures { Outcome B.labels B.makes (λ total. next_part total (parse total room)) rest.old builder.old result rest.new builder.new }
{
    rest.skip_gap()?;
    term(builder, rest, room)
}
