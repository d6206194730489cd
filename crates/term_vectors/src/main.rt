// Holds the reader of terms against a list of cases: a term in hexadecimal, a tab, and `ok` or a refusal's number and
// place. A term that reads is also written back and compared, and `no room` is expected of a longer one.
#![tactic(auto)]

mod terms_held;

use cases::Kind;
use cut::cut_at;
use std::io;
use std::io::Read;
use terms_held::AnyTerms;

fn main(rt: HostRuntime) -> io::Result<()> {
    let mut list = Vec::new(rt.alloc());
    rt.stdin().read_to_end(&mut list)?;
    let mut agree = 0usize;
    let mut differ = 0usize;
    for line in cut_at(list.as_slice(), b'\n') {
        let counter = if AnyTerms::line_agrees(rt.alloc(), line)? {
            &mut agree
        } else {
            &mut differ
        };
        *counter = counter.saturating_add(1);
    }
    println!(rt; "{agree} cases agree, {differ} differ")
}
