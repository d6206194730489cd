ghost use Rattle.std.specs.Prelude.{◌≡◌, Some, None};
ghost use Rattle.names.specs.Name.{opens, follows, fits, flaw};

// May this byte stand first in a name?
fn opens_name(b: u8) -> bool
    ensures { result ≡ opens b }
{
    matches!(b, b'A'..=b'Z' | b'a'..=b'z' | 128..=255)
}

// May this byte stand in a name, after the first?
fn follows_in_name(b: u8) -> bool
    ensures { result ≡ follows b }
{
    opens_name(b) || b.is_ascii_digit()
}

// May this byte stand at place `i` of a name?
fn stands(i: usize, b: u8) -> bool
    ensures { result ≡ fits i b }
{
    if i == 0 {
        opens_name(b)
    } else {
        i < 16 && follows_in_name(b)
    }
}

// The first byte that keeps `word` from being a name: 0 for an empty word, 16 for one too long.
pub(crate) fn first_flaw(word: &[u8]) -> Option<usize>
    ensures { result ≡ flaw 0 word.now }
{
    if word.is_empty() {
        return Some(0);
    }
    word.iter().enumerate().position(|(i, b)| !stands(i, *b))
}
