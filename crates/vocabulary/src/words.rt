use distinct::Distinct;
use names::Name;
use tables::{Mark as TablesMark, Tables};

// The tables of a vocabulary: class and link names and the different terms, and item names.
#[derive(Clone, Drop)]
pub(crate) struct Words {
    pub(crate) tables: Tables,
    pub(crate) items: Distinct<Name>,
}

// How far the tables had come.
#[derive(Clone, Copy)]
pub(crate) struct Mark {
    pub(crate) tables: TablesMark,
    pub(crate) items: usize,
}
