ghost use Rattle.std.specs.Prelude.{◌≡◌, [], IfOk};
ghost use Rattle.register.specs.Progress.{begun};
ghost use Rattle.register.specs.Reading.{progress_of, text_of, Few, Entered, TakenOr};

use crate::tallies::Tally;
use lines::{
    GlossLine, HeadingLine, Letter, QuestionLine, Stage, StatementLine, TieLine, cut_line, follow,
    letter,
};
use names::{Fault, Refusal};
use sheet::Sheet;
use std::alloc::{AllocError, Global};

// How far a register has been read, and what is to be written of it.
#[derive(Drop)]
pub(crate) struct Reading {
    pub(crate) stage: Stage,
    pub(crate) sheet: Sheet,
    pub(crate) tally: Tally,
    pub(crate) text: Vec<u8>,
}

impl Reading {
    // Nothing was read yet.
    pub(crate) fn new(heap: Global) -> Result<Reading, AllocError>
        ensures { IfOk result (λ s. (progress_of s ≡ begun) × (text_of s ≡ [])) }
    {
        Ok(Reading {
            stage: Stage::Start,
            sheet: Sheet::new(heap)?,
            tally: Tally::default(),
            text: Vec::new(heap),
        })
    }

    // A line of this kind, by the sheet's call for it. The heading is copied, with its end; a question is read as a query
    // is, and leaves the sheet as it was.
    fn enter(&mut self, kind: Letter, line: &[u8]) -> Result<(), Fault>
        ensures { Entered kind line.now result self.old self.new }
    {
        match kind {
            Letter::Heading => {
                cut_line::<HeadingLine>(line)?;
                self.text.extend_from_slice(line)?;
                self.text.extend_from_slice(b"\n")?;
            }
            Letter::Gloss => {
                let found = cut_line::<GlossLine>(line)?;
                self.sheet.gloss(found.second, found.third)?;
            }
            Letter::Statement => {
                let found = cut_line::<StatementLine>(line)?;
                self.sheet.state(found.second, found.third)?;
            }
            Letter::Tie => {
                let found = cut_line::<TieLine>(line)?;
                self.sheet.tie(found.second, found.third, found.fourth)?;
            }
            Letter::Question => {
                let found = cut_line::<QuestionLine>(line)?;
                self.sheet.query(found.second, found.third)?;
            }
        }
        Ok(())
    }

    // Takes the next line, or says what is wrong with it: its end first, then its letter, its stage, and its fields.
    pub(crate) fn line(&mut self, line: Result<&[u8], Refusal>) -> Result<(), Fault>
        requires { Few 16384 self.old.tally }
        ensures { TakenOr line.entry result self.old self.new }
    {
        let line = line?;
        let kind = letter(line).ok_or(Refusal::UnknownLetter)?;
        let stage = follow(self.stage, kind).ok_or(Refusal::WrongStage)?;
        self.enter(kind, line)?;
        self.stage = stage;
        self.tally.count(kind);
        Ok(())
    }
}
