// A proofreader of terms: standard input has one term a line, and the report has one line for each.
#![tactic(auto)]

mod proofs;
mod reports;

use reports::{LIMIT, proofread};
use std::io;
use std::io::{Read, Write};

fn main(rt: HostRuntime) -> io::Result<()> {
    let mut input = Vec::new(rt.alloc());
    // One byte more than is read, so that more is seen to be there.
    let most = LIMIT as u64 + 1;
    rt.stdin().take(most).read_to_end(&mut input)?;
    let report = proofread(rt.alloc(), input.as_slice())?;
    rt.stdout().write_all(report.as_slice())
}
