ghost use Rattle.std.specs.Prelude.{◌≡◌, ℕ, ◌<◌, [], slice_index_or};
ghost use Rattle.lines.specs.Pieces.{pieces};
ghost use Rattle.lines.specs.Stages.{sign, width, letter_of};
ghost use Rattle.lines.specs.declared.letters.Letter.TheVariants.{Heading, Gloss, Statement, Tie, Question};
ghost use Rattle.lines.specs.Widths.{some_fields};

use crate::fields::cut_field;
use crate::letters::Letter;

// A kind of line: the letter that opens it, and how many fields it has, the letter's own among them.
pub trait LineKind {
    const LETTER: u8;

    const FIELDS: usize;

    ghost LETTER: { ℕ };

    ghost FIELDS: { ℕ };

    ghost some: { 0 < FIELDS };
}

pub struct HeadingLine;

pub struct GlossLine;

pub struct StatementLine;

pub struct TieLine;

pub struct QuestionLine;

impl LineKind for HeadingLine {
    const LETTER: u8 = b'H';

    const FIELDS: usize = 2;

    ghost LETTER = { sign Heading };

    ghost FIELDS = { width Heading };

    ghost some = { some_fields Heading };
}

impl LineKind for GlossLine {
    const LETTER: u8 = b'G';

    const FIELDS: usize = 3;

    ghost LETTER = { sign Gloss };

    ghost FIELDS = { width Gloss };

    ghost some = { some_fields Gloss };
}

impl LineKind for StatementLine {
    const LETTER: u8 = b'S';

    const FIELDS: usize = 3;

    ghost LETTER = { sign Statement };

    ghost FIELDS = { width Statement };

    ghost some = { some_fields Statement };
}

impl LineKind for TieLine {
    const LETTER: u8 = b'T';

    const FIELDS: usize = 4;

    ghost LETTER = { sign Tie };

    ghost FIELDS = { width Tie };

    ghost some = { some_fields Tie };
}

impl LineKind for QuestionLine {
    const LETTER: u8 = b'Q';

    const FIELDS: usize = 3;

    ghost LETTER = { sign Question };

    ghost FIELDS = { width Question };

    ghost some = { some_fields Question };
}

// The kind of line that the first field names, if it names one.
pub fn letter(line: &[u8]) -> Option<Letter>
    ensures { result ≡ letter_of (slice_index_or (pieces 9 line.now) 0 []) }
{
    match cut_field(line).0 {
        [HeadingLine::LETTER] => Some(Letter::Heading),
        [GlossLine::LETTER] => Some(Letter::Gloss),
        [StatementLine::LETTER] => Some(Letter::Statement),
        [TieLine::LETTER] => Some(Letter::Tie),
        [QuestionLine::LETTER] => Some(Letter::Question),
        _ => None,
    }
}
