use cases::{Kind, decoded};
use cut::cut_at;
use names::Fault;
use sheet::Sheet;
use std::alloc::{AllocError, Global};

// Calls on one sheet, some of them refused, a line each, and what each answers.
pub(crate) struct Calls;

impl Kind for Calls {
    // What the answers show is not said.
    ghost shows = { λ _ _. Unit {0} };

    fn agrees(heap: Global, given: &[u8], expected: &[u8]) -> Result<bool, AllocError> {
        let mut sheet = Sheet::new(heap)?;
        let mut told = String::new(heap);
        for line in cut_at(given, b'\n') {
            match call(heap, &mut sheet, line)? {
                Ok(n) => writeln!(told, "ok {n}")?,
                Err(Fault { field, refusal }) => {
                    writeln!(told, "{} {field} {}", refusal.number(), refusal.place())?
                }
            }
        }
        Ok(decoded(heap, expected)?.as_slice() == told.as_bytes())
    }
}

// The call of a line: its first letter, and behind a tab what is given to the sheet. Want of memory for a buffer is
// no answer of the sheet.
fn call(heap: Global, sheet: &mut Sheet, line: &[u8]) -> Result<Result<usize, Fault>, AllocError> {
    let mut fields = line.splitn(4, |b| *b == b'\t').skip(1);
    let first = fields.next().unwrap_or(&[]);
    let second = fields.next().unwrap_or(&[]);
    let third = fields.next().unwrap_or(&[]);
    Ok(match line.first() {
        Some(b'G') => sheet.gloss(first, second).map(|()| 0),
        Some(b'S') => sheet.state(first, second).map(|()| 0),
        Some(b'T') => sheet.tie(first, second, third).map(|()| 0),
        Some(b'Q') => sheet.query(first, second).map(|_| 0),
        _ => {
            let mut out = vec![in heap; 1u8; number(second)]?;
            spelled(heap, sheet, first, out.as_mut_slice())
        }
    })
}

// The length that is written into the buffer, or 0 where the bytes are not the term's.
fn spelled(heap: Global, sheet: &Sheet, term: &[u8], out: &mut [u8]) -> Result<usize, Fault> {
    let n = sheet.spell(heap, term, out)?;
    Ok(if out.get(..n) == Some(term) { n } else { 0 })
}

// A number written in decimal; a byte below `0` counts as 0.
fn number(text: &[u8]) -> usize {
    text.iter().fold(0usize, |value, b| {
        value
            .saturating_mul(10)
            .saturating_add(usize::from(b.saturating_sub(b'0')))
    })
}
