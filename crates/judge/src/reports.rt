use crate::proofs::proof;
use cut::cut_at;
use std::alloc::Global;
use std::io::Write;
use std::{fmt, io};

// As many bytes as are read, and as a register's file may have.
pub(crate) const LIMIT: usize = 16384;

// How many terms were read, and how many refused.
#[derive(Default, Drop)]
struct Tally {
    read: usize,
    refused: usize,
}

impl Tally {
    // Writes the report's line for one term, and counts it.
    fn note(&mut self, heap: Global, term: &[u8], report: &mut Vec<u8>) -> io::Result<()> {
        let mut out = [0u8; LIMIT];
        let counter = match proof(heap, term, &mut out) {
            Ok(n) => {
                write!(report, "ok {n} ")?;
                report.write_all(&out[..n])?;
                writeln!(report)?;
                &mut self.read
            }
            Err(refusal) => {
                writeln!(
                    report,
                    "refused {} at {}",
                    refusal.number(),
                    refusal.place()
                )?;
                &mut self.refused
            }
        };
        *counter = counter.saturating_add(1);
        Ok(())
    }
}

impl fmt::Display for Tally {
    fn fmt<W: fmt::Write>(&self, f: &mut fmt::Formatter<W>) -> fmt::Result {
        write!(f, "{} read, {} refused", self.read, self.refused)
    }
}

// The report on an input, one term a line.
pub(crate) fn proofread(heap: Global, input: &[u8]) -> io::Result<Vec<u8>> {
    let text = input.get(..LIMIT).unwrap_or(input);
    let mut tally = Tally::default();
    let mut report = Vec::new(heap);
    for (i, term) in cut_at(text, b'\n').enumerate() {
        write!(report, "{} ", i + 1)?;
        tally.note(heap, term, &mut report)?;
    }
    writeln!(report, "{tally}")?;
    if text.len() < input.len() {
        writeln!(
            report,
            "the input is over {LIMIT} bytes: the rest was not read"
        )?;
    }
    Ok(report)
}
