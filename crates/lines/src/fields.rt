ghost use Rattle.std.specs.Prelude.{◌≡◌, ℕ, suc, ◌≢◌, [], length, min, MatchResult, slice_index_or};
ghost use Rattle.lines.specs.Pieces.{pieces};
ghost use Rattle.names.specs.declared.refusals.Refusal.TheVariants.{FieldCount};

use crate::kinds::LineKind;
use cut::{behind, piece_length};
use names::Refusal;

// What stands between two fields.
const TAB: u8 = b'\t';

// A line's fields behind its letter, each empty where the line has none.
#[derive(Clone, Copy, Debug, PartialEq, Eq)]
pub struct Fields<'a> {
    pub second: &'a [u8],
    pub third: &'a [u8],
    pub fourth: &'a [u8],
}

// The first field of a line, and the fields behind it, or nothing.
pub(crate) fn cut_field(line: &[u8]) -> (&[u8], &[u8])
    ensures first { result.0.now ≡ slice_index_or (pieces 9 line.now) 0 [] }
    ensures others { (k : ℕ) → slice_index_or (pieces 9 result.1.now) k [] ≡ slice_index_or (pieces 9 line.now) (suc k) [] }
{
    let n = piece_length(line, TAB);
    (&line[..n], behind(line, n))
}

// How many fields a line has; of more than `most` it is `most`.
fn width(line: &[u8], most: usize) -> usize
    ensures { result ≡ min most (length (pieces 9 line.now)) }
{
    line.split(|b| *b == TAB).take(most).count()
}

// The fields of a line, which has as many as its kind.
pub fn cut_line<K: LineKind>(line: &[u8]) -> Result<Fields<'_>, Refusal>
    ensures { MatchResult result (λ f. (length (pieces 9 line.now) ≡ K.FIELDS) × (f.second.now ≡ slice_index_or (pieces 9 line.now) 1 []) × (f.third.now ≡ slice_index_or (pieces 9 line.now) 2 []) × (f.fourth.now ≡ slice_index_or (pieces 9 line.now) 3 [])) (λ e. (length (pieces 9 line.now) ≢ K.FIELDS) × (e ≡ FieldCount)) }
{
    if width(line, K::FIELDS.saturating_add(1)) != K::FIELDS {
        return Err(Refusal::FieldCount);
    }
    let (_, others) = cut_field(line);
    let (second, others) = cut_field(others);
    let (third, others) = cut_field(others);
    let (fourth, _) = cut_field(others);
    Ok(Fields {
        second,
        third,
        fourth,
    })
}
