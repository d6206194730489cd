// As many classes as there may be.
pub(crate) const CLASSES: usize = 64;

// Some of the classes, a flag for each.
#[derive(Clone, Copy, Debug, PartialEq, Eq)]
pub struct ClassSet {
    pub(crate) flags: [bool; CLASSES],
}

// What is kept of a class: the number of the term that glosses it, and the classes that it refers to.
#[derive(Clone, Copy, Debug, PartialEq, Eq)]
pub struct ClassRecord {
    pub(crate) gloss: Option<usize>,
    pub(crate) refers: ClassSet,
}
