ghost use Rattle.cut.specs.Ended.{ended, left};
ghost use Rattle.std.specs.Iterator.{YieldsFirstRef, item_count};
ghost use Rattle.std.specs.Prelude.{◌≡◌};

use crate::{behind, piece_length};

// The pieces of a text that are still to come, each without the byte that ends it.
#[derive(Drop)]
pub struct Pieces<'a> {
    rest: &'a [u8],
    cut: u8,
}

// A text cut at each `cut`. No piece stands behind a last `cut`, and the last piece may be without one.
pub fn cut_at(text: &[u8], cut: u8) -> Pieces<'_>
    ensures { left result ≡ ended cut text.now }
{
    Pieces { rest: text, cut }
}

impl<'a> Iterator for Pieces<'a> {
    type Item = &'a [u8];

    ghost next_gives = { YieldsFirstRef left };

    ghost remaining = { item_count left };

    fn next(&mut self) -> Option<&'a [u8]> {
        let rest = self.rest;
        if rest.is_empty() {
            return None;
        }
        let n = piece_length(rest, self.cut);
        self.rest = behind(rest, n);
        Some(&rest[..n])
    }
}
