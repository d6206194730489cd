ghost use Rattle.lines.specs.Unread.{unread, Reads};
ghost use Rattle.std.specs.Iterator.{at_most};
ghost use Rattle.std.specs.Prelude.{◌≡◌, length};

use cut::{behind, piece_length};
use names::Refusal;

// What ends a line.
const END: u8 = b'\n';

// The lines of a file that are still to come, each without its end; a last line that does not end is refused.
#[derive(Drop)]
pub struct FileLines<'a> {
    rest: &'a [u8],
}

impl<'a> FileLines<'a> {
    pub fn new(file: &'a [u8]) -> FileLines<'a>
        ensures { unread result ≡ file.now }
    {
        FileLines { rest: file }
    }
}

impl<'a> Iterator for FileLines<'a> {
    type Item = Result<&'a [u8], Refusal>;

    ghost next_gives = { Reads };

    ghost remaining = { λ s. at_most (length (unread s)) };

    fn next(&mut self) -> Option<Result<&'a [u8], Refusal>> {
        let rest = self.rest;
        if rest.is_empty() {
            return None;
        }
        let n = piece_length(rest, END);
        self.rest = behind(rest, n);
        if n < rest.len() {
            Some(Ok(&rest[..n]))
        } else {
            Some(Err(Refusal::Unended))
        }
    }
}
