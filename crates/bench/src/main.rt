// How fast terms are read and written, and registers proofread. Give it an argument to run.
#![tactic(auto)]

mod registers;

use registers::Registers;
use std::env;
use timing::{Terms, USAGE, is_asked_for, time};

fn main(rt: HostRuntime) -> anyhow::Result<()> {
    if !is_asked_for(env::args(&rt)?.count()) {
        println!(rt; "{USAGE}")?;
        return Ok(());
    }
    time::<Terms>(&rt, 4096, 256)?;
    time::<Terms>(&rt, 16384, 64)?;
    time::<Registers>(&rt, 8192, 1000)?;
    time::<Registers>(&rt, 16384, 1000)?;
    Ok(())
}
