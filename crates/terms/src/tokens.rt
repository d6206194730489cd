ghost use Rattle.std.specs.Prelude.{◌≡◌, Some, None, MatchResult};
ghost use Rattle.terms.specs.Seen.{seen, Placed, Completes};
ghost use Rattle.terms.specs.Word.{meant, bare, modal};
ghost use Rattle.names.specs.declared.refusals.Refusal.TheVariants.{BadOperator};

use crate::rests::Word;
use crate::words::{Join, Modality, Operator, Quantifier, Token};
use names::Refusal;

// What a word is: an operator whole, or else a name.
pub(crate) fn token(word: Word<'_>) -> Result<Token<'_>, Refusal>
    ensures { MatchResult result (λ t. (meant word.entry.bytes.now ≡ Some (seen t)) × Placed word.entry.bytes.now word.entry.place t) (λ e. (meant word.entry.bytes.now ≡ None) × (e ≡ BadOperator word.entry.place)) }
{
    let name = Token::Name {
        bytes: word.bytes,
        place: word.place,
    };
    let [first, ..] = word.bytes else {
        return Ok(name);
    };
    match *first as char {
        '*' => bare_operator(word, Operator::Top),
        '!' => bare_operator(word, Operator::Bottom),
        '-' => bare_operator(word, Operator::Not),
        '&' => bare_operator(word, Operator::Join(Join::And)),
        '|' => bare_operator(word, Operator::Join(Join::Or)),
        '+' => bare_operator(word, Operator::Quantifier(Quantifier::Exists)),
        '=' => bare_operator(word, Operator::Quantifier(Quantifier::Forall)),
        '<' => reader_operator(word, Modality::May),
        '[' => reader_operator(word, Modality::Must),
        _ => Ok(name),
    }
}

// A word that begins with the character of `operator`: that operator, where no byte follows.
fn bare_operator(word: Word<'_>, operator: Operator) -> Result<Token<'_>, Refusal>
    ensures { Completes (bare operator) word.entry result }
{
    match word.bytes {
        [_, _, ..] => Err(Refusal::BadOperator { place: word.place }),
        _ => Ok(Token::Operator(operator)),
    }
}

// A word that begins with the character of `modality`: that modality, where one digit from 1 to 8 follows.
fn reader_operator(word: Word<'_>, modality: Modality) -> Result<Token<'_>, Refusal>
    ensures { Completes (modal modality) word.entry result }
{
    match word.bytes {
        [_, digit @ b'1'..=b'8'] => Ok(Token::Reader(modality, *digit - b'0')),
        _ => Err(Refusal::BadOperator { place: word.place }),
    }
}
