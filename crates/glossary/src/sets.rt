ghost use Rattle.std.specs.Prelude.{◌≡◌, ℕ, false, ◌&&◌, ◌||◌, ◌==◌, nat_lt};
ghost use Rattle.glossary.specs.Records.{has_at};

use crate::records::{CLASSES, ClassSet};

impl ClassSet {
    // No class.
    pub fn new() -> ClassSet
        ensures { (f : ℕ) → has_at result f ≡ false }
    {
        ClassSet {
            flags: [false; CLASSES],
        }
    }

    pub fn has(&self, c: usize) -> bool
        ensures { result ≡ has_at self.now c }
    {
        self.flags.get(c).is_some_and(|flag| *flag)
    }

    // With class `c` too, if it is below `CLASSES`.
    pub fn add(&mut self, c: usize)
        ensures { (f : ℕ) → has_at self.new f ≡ (has_at self.old f || (c == f && nat_lt c CLASSES)) }
    {
        if c < CLASSES {
            self.flags[c] = true;
        }
    }

    // With the classes of `other` too.
    pub fn join(&mut self, other: &ClassSet)
        ensures { (f : ℕ) → has_at self.new f ≡ (has_at self.old f || has_at other.now f) }
    {
        for (c, flag) in self.flags.iter_mut().enumerate() {
            *flag |= other.flags[c];
        }
    }
}
