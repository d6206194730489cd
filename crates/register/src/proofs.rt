ghost use Rattle.std.specs.Prelude.{◌≡◌};
ghost use Rattle.register.specs.Proof.{Proofreads};
ghost use Rattle.register.specs.Report.{wanted};

use crate::readings::Reading;
use crate::tallies::Proofread;
use crate::walks::{LIMIT, tell};
use lines::lay_out;
use names::Refusal;
use std::alloc::Global;

// As many bytes as the report on a file may want: twice its length, at most 16,384 counted, and 32 more.
pub fn room(file: &[u8]) -> usize
    ensures { result ≡ wanted file.now }
{
    2 * file.len().min(LIMIT) + 32
}

// Reads a register's file and writes the report on it: its heading, and the line of the first fault. A buffer of twice
// the file's length, at most 16,384 counted, and 32 bytes more is enough; a shorter one is refused before anything is
// read. All memory is taken before anything is written.
pub fn proofread(heap: Global, file: &[u8], out: &mut [u8]) -> Result<Proofread, Refusal>
    ensures { Proofreads file.now out.old result out.new }
{
    if out.len() < room(file) {
        return Err(Refusal::ShortBuffer);
    }
    let mut reading = Reading::new(heap)?;
    let read = reading.read(file);
    let last = tell(heap, read)?;
    let len = lay_out(reading.text.as_slice(), last.as_bytes(), out)?;
    Ok(Proofread {
        len,
        tally: reading.tally,
    })
}
