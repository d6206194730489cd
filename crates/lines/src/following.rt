ghost use Rattle.std.specs.Prelude.{◌≡◌};
ghost use Rattle.lines.specs.Stages.{followed};

use crate::letters::{Letter, Stage};

// The stage after a line with this letter, if one may stand there: the heading only first, and after a question only
// questions.
pub fn follow(stage: Stage, letter: Letter) -> Option<Stage>
    ensures { result ≡ followed stage letter }
{
    match (stage, letter) {
        (Stage::Start, Letter::Heading) => Some(Stage::Lines),
        (Stage::Lines, Letter::Gloss | Letter::Statement | Letter::Tie) => Some(Stage::Lines),
        (Stage::Lines | Stage::Questions, Letter::Question) => Some(Stage::Questions),
        _ => None,
    }
}
