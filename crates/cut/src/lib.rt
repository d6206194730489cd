// A text cut at a byte: lines at byte 10, fields at byte 9.
#![tactic(auto)]

mod pieces;

ghost use Rattle.std.specs.Prelude.{◌≡◌, ℕ, ◌+◌, ◌<◌, ◌≤◌, length, drop, ◌≢◌, slice_index};

pub use pieces::{Pieces, cut_at};

// How many bytes stand before the first `cut`, or before the end where there is none.
pub fn piece_length(text: &[u8], cut: u8) -> usize
    ensures within { result ≤ length text.now }
    ensures before { (k : ℕ) → k < result → slice_index text.now k ≢ cut }
    ensures found { result < length text.now → slice_index text.now result ≡ cut }
{
    text.iter().position(|b| *b == cut).unwrap_or(text.len())
}

// What stands behind a piece of `n` bytes and the byte that ends it.
pub fn behind(text: &[u8], n: usize) -> &[u8]
    ensures rest { result.now ≡ drop (n + 1) text.now }
    ensures shorter { 0 < length text.now → length result.now < length text.now }
{
    if n < text.len() { &text[n + 1..] } else { &[] }
}
