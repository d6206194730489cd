// Holds the reader of terms, the calls on a sheet and the proofreader of registers against listed cases, one a line: `T`, a
// term in hexadecimal, and `ok` or a refusal's number and place; `C`, calls on one sheet and their answers, or `R`, a
// register and its report, both in hexadecimal.
#![tactic(auto)]

mod calls;
mod registers;

use calls::Calls;
use cases::{Kind, Terms};
use cut::{behind, cut_at, piece_length};
use registers::Registers;
use std::alloc::{AllocError, Global};
use std::io::Read;
use std::{fmt, io};

// How many cases of each kind agree, and how many of any kind differ.
#[derive(Default, Drop)]
struct Tally {
    terms: usize,
    sheets: usize,
    registers: usize,
    differ: usize,
}

impl Tally {
    // Counts one case, from its line. The first letter is its kind, and it stands behind the first tab.
    fn hold(&mut self, heap: Global, line: &[u8]) -> Result<(), AllocError> {
        let case = behind(line, piece_length(line, b'\t'));
        let counter = match line.first() {
            Some(b'T') if Terms::line_agrees(heap, case)? => &mut self.terms,
            Some(b'C') if Calls::line_agrees(heap, case)? => &mut self.sheets,
            Some(b'R') if Registers::line_agrees(heap, case)? => &mut self.registers,
            _ => &mut self.differ,
        };
        *counter = counter.saturating_add(1);
        Ok(())
    }
}

impl fmt::Display for Tally {
    fn fmt<W: fmt::Write>(&self, f: &mut fmt::Formatter<W>) -> fmt::Result {
        write!(
            f,
            "{} terms, {} sheets and {} registers agree, {} differ",
            self.terms, self.sheets, self.registers, self.differ
        )
    }
}

fn main(rt: HostRuntime) -> io::Result<()> {
    let mut list = Vec::new(rt.alloc());
    rt.stdin().read_to_end(&mut list)?;
    let mut tally = Tally::default();
    for line in cut_at(list.as_slice(), b'\n') {
        tally.hold(rt.alloc(), line)?;
    }
    println!(rt; "{tally}")
}
