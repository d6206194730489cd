use register::{ROOM, proofread};
use std::alloc::{AllocError, Global};
use timing::Load;

// Proofreading a register.
pub(crate) struct Registers;

impl Load for Registers {
    const TEXTS: &'static str = "registers";

    const UNITS: &'static str = "lines";

    // Glosses, statements and ties over 63 classes, 8 links and 32 items, and then questions as many as there is room
    // for.
    fn text(heap: Global, size: usize) -> Result<String, AllocError> {
        let mut text = String::from_str(heap, "H\tbenchmark\n")?;
        glosses(&mut text)?;
        statements(&mut text)?;
        ties(&mut text)?;
        questions(heap, &mut text, size)?;
        Ok(text)
    }

    // Of the count of lines nothing is said.
    ghost comes = { λ _ _. Unit {0} };

    // How many of the lines were taken.
    fn work(heap: Global, text: &[u8]) -> usize {
        let mut out = [0u8; ROOM];
        proofread(heap, text, &mut out).map_or(0, |done| {
            let tally = done.tally;
            [tally.glosses, tally.statements, tally.ties, tally.questions]
                .iter()
                .fold(0, |sum: usize, n| sum.saturating_add(*n))
        })
    }
}

fn glosses(text: &mut String) -> Result<(), AllocError> {
    for i in 0..31u32 {
        writeln!(text, "G\tG{i:02}\t& C{i:02} + R{} - C{:02}", i % 8, i + 1)?;
    }
    Ok(())
}

fn statements(text: &mut String) -> Result<(), AllocError> {
    for i in 0..120u32 {
        writeln!(text, "S\ti{:02}\t[1 G{:02}", i % 32, i % 31)?;
    }
    Ok(())
}

fn ties(text: &mut String) -> Result<(), AllocError> {
    for i in 0..60u32 {
        writeln!(text, "T\tR{}\ti{:02}\ti{:02}", i % 8, i % 32, i * 7 % 32)?;
    }
    Ok(())
}

fn questions(heap: Global, text: &mut String, size: usize) -> Result<(), AllocError> {
    for i in 0..1000u32 {
        let class = i % 31;
        let line = format!(in heap; "Q\ti{:02}\t| - G{class:02} [1 G{class:02}\n", i % 32)?;
        if text.len() + line.len() <= size {
            text.push_str(line.as_str())?;
        }
    }
    Ok(())
}
