// How fast terms are read and written: 1 MiB of terms, in pieces of 4 KiB and of 16 KiB. Give it an argument to run.
#![tactic(auto)]

use std::env;
use timing::{Terms, USAGE, is_asked_for, time};

fn main(rt: HostRuntime) -> anyhow::Result<()> {
    if !is_asked_for(env::args(&rt)?.count()) {
        println!(rt; "{USAGE}")?;
        return Ok(());
    }
    time::<Terms>(&rt, 4096, 256)?;
    time::<Terms>(&rt, 16384, 64)?;
    Ok(())
}
