// The two sorts of name in a term: the same bytes may name a class and a link.
#[derive(Clone, Copy, Debug, PartialEq, Eq)]
pub enum Sort {
    OfClass,
    OfLink,
}

// One operator of a term over numbers: names and parts are places in tables, a part's before its whole's.
#[derive(Clone, Copy, PartialEq, Eq)]
pub enum Node {
    Bottom,
    Top,
    Class(usize),
    Not(usize),
    And(usize, usize),
    Or(usize, usize),
    // a link, then the part
    Exists(usize, usize),
    Forall(usize, usize),
    // a reader, then the part
    May(u8, usize),
    Must(u8, usize),
}
