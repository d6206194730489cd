ghost use Rattle.std.specs.Prelude.{◌≡◌, [], string_bytes, MatchResult};
ghost use Rattle.names.specs.declared.refusals.Refusal.TheVariants.{NoMemory};
ghost use Rattle.register.specs.Progress.{begun};
ghost use Rattle.register.specs.Reading.{progress_of, text_of};
ghost use Rattle.register.specs.Report.{report};
ghost use Rattle.register.specs.Walk.{told_by, Wanting, Walked};

use crate::readings::Reading;
use lines::{FileLines, Located, Stage};
use names::Refusal;
use std::alloc::Global;

// As many bytes as a file may have.
pub const LIMIT: usize = 16384;

// As many bytes as the report on the longest file may want.
pub const ROOM: usize = 2 * LIMIT + 32;

impl Reading {
    // Reads a whole file, from nothing read yet, up to the first fault. Only a file with no line ends where it starts.
    pub(crate) fn read(&mut self, file: &[u8]) -> Result<(), Located>
        requires fresh { progress_of self.old ≡ begun }
        requires blank { text_of self.old ≡ [] }
        ensures { Walked (report file.now) result self.new }
    {
        if file.len() > LIMIT {
            return Err(Located {
                line: 0,
                fault: Refusal::FileTooLong.into(),
            });
        }
        for (i, line) in FileLines::new(file).enumerate() {
            let number = i + 1;
            self.line(line).map_err(|fault| Located {
                line: number,
                fault,
            })?;
        }
        match self.stage {
            Stage::Start => Err(Located {
                line: 1,
                fault: Refusal::WrongStage.into(),
            }),
            Stage::Lines | Stage::Questions => Ok(()),
        }
    }
}

// The line that tells where reading stopped; nothing where it did not. Of a want of memory no line tells.
pub(crate) fn tell(heap: Global, read: Result<(), Located>) -> Result<String, Refusal>
    ensures { MatchResult result (λ s. (string_bytes s ≡ told_by read) × (Wanting read → ⊥)) (λ e. e ≡ NoMemory) }
{
    match read {
        Ok(()) => Ok(String::new(heap)),
        Err(stop) if stop.fault.refusal == Refusal::NoMemory => Err(Refusal::NoMemory),
        Err(stop) => Ok(stop.to_string(heap)?),
    }
}
