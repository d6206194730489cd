ghost use Rattle.std.specs.Prelude.{◌≡◌, ◌-◌, ◌≤◌, true, ◌++◌, length, take, replicate, MatchResult};
ghost use Rattle.names.specs.Name.{legal, Legal, FirstFlaw};

use crate::letters::first_flaw;
use distinct::Alike;

// A name: 1 to 16 bytes, letters, digits and bytes from 128 on, the first no digit.
// Its bytes are the first `len` of `bytes`; zeros stand behind them, so that equal names are equal throughout.
#[derive(Clone, Copy, Debug, PartialEq, Eq)]
pub struct Name {
    len: usize,
    bytes: [u8; 16],
    ghost short: { len ≤ 16 },
    ghost fine: { legal (take len bytes) ≡ true },
    ghost whole: { length (take len bytes) ≡ len },
    ghost padded: { bytes ≡ take len bytes ++ replicate (16 - len) 0 },
}

impl Name {
    // The name with these bytes, or the place of the first byte that can't stand there.
    pub fn new(word: &[u8]) -> Result<Name, usize>
        ensures { MatchResult result (λ n. (take n.len n.bytes ≡ word.now) × Legal word.now) (λ p. FirstFlaw word.now p) }
    {
        if let Some(place) = first_flaw(word) {
            return Err(place);
        }
        let len = word.len();
        let mut bytes = [0u8; 16];
        bytes[0..len].copy_from_slice(word);
        Ok(Name { len, bytes })
    }

    pub fn as_slice(&self) -> &[u8]
        ensures { result.now ≡ take self.now.len self.now.bytes }
    {
        &self.bytes[0..self.len]
    }
}

// Two names are alike when all their bytes are.
impl Alike for Name {
    ghost shown = { λ n. take n.len n.bytes };

    #[tactic(auto, using(crate::specs::Equal::tells))]
    fn alike(&self, other: &Name) -> bool {
        *self == *other
    }
}
