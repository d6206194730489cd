ghost use Rattle.std.specs.Prelude.{◌≡◌, ◌<◌, IfOk};
ghost use Rattle.cases.specs.Hex.{bytes_of, digit_of};

use std::alloc::{AllocError, Global};

// The bytes that are written as two digits each. An odd last digit is dropped.
pub fn decoded(heap: Global, text: &[u8]) -> Result<Vec<u8>, AllocError>
    ensures { IfOk result (λ bytes. bytes.items ≡ bytes_of text.now) }
{
    let mut bytes = Vec::new(heap);
    for pair in text.chunks_exact(2) {
        bytes.push(digit(pair[0]) * 16 + digit(pair[1]))?;
    }
    Ok(bytes)
}

// Any byte that is no digit counts as the digit 0.
fn digit(b: u8) -> u8
    ensures value { result ≡ digit_of b }
    ensures small { result < 16 }
{
    match b {
        b'0'..=b'9' => b - b'0',
        b'a'..=b'f' => b - b'a' + 10,
        _ => 0,
    }
}
