// The judge of registers. It proofreads one from standard input: it prints the register's heading and its first fault,
// if it has one, and then how many lines of each kind were taken.
#![tactic(auto)]

use anyhow::anyhow;
use names::Refusal;
use register::{LIMIT, ROOM, proofread};
use std::io::{Read, Write};

fn main(rt: HostRuntime) -> anyhow::Result<()> {
    let mut file = Vec::new(rt.alloc());
    // One byte more, so that a file too long is seen to be.
    let most = LIMIT as u64 + 1;
    rt.stdin().take(most).read_to_end(&mut file)?;
    let mut out = vec![in rt.alloc(); 0u8; ROOM]?;
    let done = proofread(rt.alloc(), file.as_slice(), out.as_mut_slice()).map_err(
        |refusal| match refusal {
            Refusal::NoMemory => anyhow!("no memory"),
            _ => anyhow!("no room"),
        },
    )?;
    let report = out.as_slice().get(..done.len).unwrap_or(&[]);
    rt.stdout().write_all(report)?;
    println!(rt; "{}", done.tally)?;
    Ok(())
}
