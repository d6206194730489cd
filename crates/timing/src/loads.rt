ghost use Rattle.std.specs.Prelude.{◌≡◌, ℕ, List, IfOk, nat_le};
ghost use Rattle.timing.specs.Sums.{Sums};

use std::alloc::{AllocError, Global};
use std::rt::Clock;
use std::time::Instant;

// Work to be timed.
pub trait Load {
    // What one text of it is called, in the plural.
    const TEXTS: &'static str;

    // What the work counts.
    const UNITS: &'static str;

    // A text for the work, of about this many bytes.
    fn text(heap: Global, size: usize) -> Result<String, AllocError>;

    // How many units may come of a text.
    ghost comes: { List ℕ → ℕ → Type 0 };

    // Works once on a text, and answers how many units came of it.
    fn work(heap: Global, text: &[u8]) -> usize
        ensures { comes text.now result };
}

// What a program says that was not asked to time anything.
pub const USAGE: &str = "give an argument to run the benchmark";

// Was a program given an argument, where its words are so many, its own name among them?
pub fn is_asked_for(words: usize) -> bool
    ensures { result ≡ nat_le 2 words }
{
    words >= 2
}

// Works so many times on one text, and answers how many units came of it in all.
fn work_on<L: Load>(heap: Global, text: &[u8], times: u32) -> usize
    ensures { Sums (L.comes text.now) times result }
{
    let mut done = 0usize;
    for _ in 0..times {
        done = done.saturating_add(L::work(heap, text));
    }
    done
}

// Makes a text, prints how long the work on it takes, done so many times, and answers how many units came of it.
pub fn time<L: Load>(
    rt: &(impl Alloc<A = Global> + Clock + Print),
    size: usize,
    times: u32,
) -> anyhow::Result<usize>
    ensures { IfOk result (λ n. (text : List ℕ) × Sums (L.comes text) times n) }
{
    let text = L::text(rt.alloc(), size)?;
    let start = Instant::now(rt)?;
    let done = work_on::<L>(rt.alloc(), text.as_bytes(), times);
    let micros = start.elapsed(rt)?.as_micros();
    println!(rt;
        "{times} {} of {} bytes: {done} {} in {micros} microseconds",
        L::TEXTS,
        text.len(),
        L::UNITS
    )?;
    Ok(done)
}
