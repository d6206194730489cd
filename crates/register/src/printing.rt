ghost use Rattle.std.specs.Prelude.{Some};
ghost use Rattle.register.specs.TallyText.{tally_text};

use crate::tallies::Tally;
use std::fmt;

// The counts, each with what it counts.
impl fmt::Display for Tally {
    ghost output = { λ t. Some (tally_text t) };

    fn fmt<W: fmt::Write>(&self, f: &mut fmt::Formatter<W>) -> fmt::Result {
        let glosses = self.glosses;
        let statements = self.statements;
        let ties = self.ties;
        let questions = self.questions;
        write!(
            f,
            "{glosses} glosses, {statements} statements, {ties} ties, {questions} questions"
        )
    }
}
