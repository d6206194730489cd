ghost use Rattle.std.specs.Prelude.{◌≡◌, ℕ, List, Decides};

// A kind whose values can be told alike or different.
// What a value shows decides it: two values are alike exactly when they show the same. A kind may show all of
// itself, or less, as an entry that shows its key and not what stands beside it.
pub trait Alike {
    ghost shown: { Self → List ℕ };

    fn alike(&self, other: &Self) -> bool
        ensures { Decides result (shown self.now ≡ shown other.now) };
}
