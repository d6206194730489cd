// Listed cases, held against the code. A case stands in a line: what is given in hexadecimal, a tab, and what is expected
// of it. The cases of terms stand here.
#![tactic(auto)]

mod hex_digits;
mod kinds;
mod term_cases;

pub use hex_digits::decoded;
pub use kinds::Kind;
pub use term_cases::{LIMIT, Terms};

#[cfg(test)]
mod tests {
    use super::*;

    #[test]
    fn cases_agree_and_differ(rt: HostRuntime) {
        let cases: [(&[u8], bool); 4] = [
            (b"2a\tok", true),
            (b"2d20\t5 1", true),
            (b"2d20\tok", false),
            (b"2a\t5 1", false),
        ];
        for (line, want) in cases {
            assert!(rt; Terms::line_agrees(rt.alloc(), line) == Ok(want));
        }
    }

    #[test]
    fn any_text_is_decoded(rt: HostRuntime) {
        let texts: [(&[u8], &[u8]); 3] = [(b"2a09", &[42, 9]), (b"2aA9f", &[42, 9]), (b"f", &[])];
        for (text, want) in texts {
            assert!(rt; decoded(rt.alloc(), text).is_ok_and(|bytes| bytes.as_slice() == want));
        }
    }
}
