// Numbers of a line's names and terms, in the tables of a vocabulary.

#[derive(Clone, Copy, Debug, PartialEq, Eq)]
pub struct PlacedGloss {
    pub class: usize,
    pub term: usize,
}

#[derive(Clone, Copy, Debug, PartialEq, Eq)]
pub struct PlacedStatement {
    pub item: usize,
    pub term: usize,
}

#[derive(Clone, Copy, Debug, PartialEq, Eq)]
pub struct PlacedTie {
    pub link: usize,
    pub from: usize,
    pub to: usize,
}
