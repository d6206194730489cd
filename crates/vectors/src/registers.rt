ghost use Rattle.std.specs.Prelude.{◌≡◌, IsTrue, take, length};
ghost use Rattle.vectors.specs.Reported.{IsReported};

use cases::{Kind, decoded};
use names::Refusal;
use register::{proofread, room};
use std::alloc::{AllocError, Global};

// What the buffer holds before: a byte that no report has.
const OLD: u8 = 1;

// A register, and the report on it. The bytes behind the report are to stay, and a buffer one byte shorter than must be
// is to be refused.
pub(crate) struct Registers;

impl Kind for Registers {
    ghost shows = { IsReported };

    fn agrees(heap: Global, given: &[u8], expected: &[u8]) -> Result<bool, AllocError> {
        let report = decoded(heap, expected)?;
        let room = room(given);
        let mut out = vec![in heap; OLD; room]?;
        let refused = is_refused(heap, given, room - 1)?;
        match proofread(heap, given, out.as_mut_slice()) {
            Ok(done) => Ok(
                refused && done.len == report.len() && holds(out.as_slice(), report.as_slice()),
            ),
            Err(_) => Ok(false),
        }
    }
}

// Is a buffer of so few bytes refused, and is every byte kept?
fn is_refused(heap: Global, file: &[u8], room: usize) -> Result<bool, AllocError> {
    let mut out = vec![in heap; OLD; room]?;
    let refused = matches!(
        proofread(heap, file, out.as_mut_slice()),
        Err(Refusal::ShortBuffer)
    );
    Ok(refused && holds(out.as_slice(), &[]))
}

// The report, and then old bytes.
fn holds(out: &[u8], report: &[u8]) -> bool
    ensures { IsTrue result → take (length report.now) out.now ≡ report.now }
{
    out.strip_prefix(report)
        .is_some_and(|rest| rest.iter().all(|b| *b == OLD))
}
