ghost use Rattle.std.specs.Prelude.{◌≡◌};
ghost use Rattle.register.specs.Progress.{counted};
ghost use Rattle.register.specs.Reading.{Few};

use lines::Letter;

// How many lines of each kind were taken.
#[derive(Clone, Copy, Debug, Default, PartialEq, Eq)]
pub struct Tally {
    pub glosses: usize,
    pub statements: usize,
    pub ties: usize,
    pub questions: usize,
}

impl Tally {
    // One line more of this kind; the heading is not counted.
    pub(crate) fn count(&mut self, kind: Letter)
        requires { Few 16384 self.old }
        ensures { self.new ≡ counted kind self.old }
    {
        match kind {
            Letter::Heading => {}
            Letter::Gloss => self.glosses += 1,
            Letter::Statement => self.statements += 1,
            Letter::Tie => self.ties += 1,
            Letter::Question => self.questions += 1,
        }
    }
}

// What proofreading answers: how many bytes were written, and what was read.
#[derive(Clone, Copy, Debug, PartialEq, Eq)]
pub struct Proofread {
    pub len: usize,
    pub tally: Tally,
}
