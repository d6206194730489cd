ghost use Rattle.std.specs.Prelude.{◌≡◌, ◌+◌, ◌^◌, ◌<◌, ◌≤◌, [], length, take, Ok, Err, MatchResult};
ghost use Rattle.names.specs.Name.{flaw};
ghost use Rattle.terms.specs.Parse.{named, place, gap, begun, ended};
ghost use Rattle.terms.specs.Term.{Spelled};
ghost use Rattle.terms.specs.Word.{first_word, after_word};

use cut::piece_length;
use names::{Name, Refusal};

// A word, and where it begins in its text.
#[derive(Clone, Copy)]
pub(crate) struct Word<'a> {
    pub(crate) bytes: &'a [u8],
    pub(crate) place: usize,
    ghost fits: { place + length bytes.now < 2 ^ 64 },
}

impl Word<'_> {
    // The word as a name.
    pub(crate) fn name(self) -> Result<Name, Refusal>
        ensures { MatchResult result (λ n. named self.entry.place self.entry.bytes.now (flaw 0 self.entry.bytes.now) ≡ Ok (take n.len n.bytes)) (λ e. named self.entry.place self.entry.bytes.now (flaw 0 self.entry.bytes.now) ≡ Err e) }
    {
        Name::new(self.bytes).map_err(|flaw| Refusal::BadName {
            place: self.place + flaw,
        })
    }
}

// What is left of a text of `total` bytes.
#[derive(Clone, Copy)]
pub(crate) struct Rest<'a> {
    bytes: &'a [u8],
    total: usize,
    ghost within: { length bytes.now ≤ total },
}

impl<'a> Rest<'a> {
    // A whole text, which begins with a word.
    pub(crate) fn new(text: &'a [u8]) -> Result<Rest<'a>, Refusal>
        ensures { MatchResult result (λ k. (begun text.now ≡ Ok k.bytes.now) × (k.total ≡ length text.now)) (λ e. begun text.now ≡ Err e) }
    {
        match text {
            [] => Err(Refusal::EndsEarly { place: 0 }),
            [b' ', ..] => Err(Refusal::StraySpace { place: 0 }),
            _ => Ok(Rest {
                bytes: text,
                total: text.len(),
            }),
        }
    }

    // Where it begins in the text.
    pub(crate) fn place(&self) -> usize
        ensures at { result ≡ place self.now.total self.now.bytes.now }
        ensures fits { result + length self.now.bytes.now < 2 ^ 64 }
    {
        self.total - self.bytes.len()
    }

    // Takes the first word off, up to its end.
    pub(crate) fn take_word(&mut self) -> Word<'a>
        ensures word { result.bytes.now ≡ first_word self.old.bytes.now }
        ensures place { result.place ≡ place self.old.total self.old.bytes.now }
        ensures behind { self.new.bytes.now ≡ after_word self.old.bytes.now }
        ensures total { self.new.total ≡ self.old.total }
    {
        let place = self.place();
        let (bytes, behind) = self.bytes.split_at(piece_length(self.bytes, b' '));
        self.bytes = behind;
        Word { bytes, place }
    }

    // Steps from the end of a word to the start of the next.
    pub(crate) fn skip_gap(&mut self) -> Result<(), Refusal>
        ensures { MatchResult result (λ _. (gap self.old.total self.old.bytes.now ≡ Ok self.new.bytes.now) × (self.new.total ≡ self.old.total)) (λ e. gap self.old.total self.old.bytes.now ≡ Err e) }
    {
        let place = self.place();
        match self.bytes {
            [] => Err(Refusal::EndsEarly { place }),
            [_] => Err(Refusal::StraySpace { place }),
            [_, b' ', ..] => Err(Refusal::StraySpace { place: place + 1 }),
            [_, next @ ..] => {
                self.bytes = next;
                Ok(())
            }
        }
    }

    // Nothing may stand behind a whole term.
    pub(crate) fn finish(mut self) -> Result<(), Refusal>
        ensures { MatchResult result (λ _. self.entry.bytes.now ≡ []) (λ e. (t : Spelled) → ended self.entry.total t self.entry.bytes.now ≡ Err e) }
    {
        if self.bytes.is_empty() {
            return Ok(());
        }
        self.skip_gap()?;
        Err(Refusal::LeftOver {
            place: self.place(),
        })
    }
}
