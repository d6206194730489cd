ghost use Rattle.vocabulary.specs.Held.{held_by, InOrder};

use crate::words::Words;

// The vocabulary of a sheet: names by number for each sort, and each different term once, within the limits of a sheet.
#[derive(Drop)]
pub struct Vocabulary {
    pub(crate) words: Words,
    ghost order: { ∥ InOrder (held_by words) ∥₁ },
}
