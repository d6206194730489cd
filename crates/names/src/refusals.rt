// Why a call was refused, with what it tells. `number` and `place` are what a report prints.
#[derive(Clone, Copy, Debug, PartialEq, Eq)]
pub enum Refusal {
    // a byte that can't stand in a name, at that byte
    BadName { place: usize },
    // a word that starts as an operator and isn't one, at its start
    BadOperator { place: usize },
    // the term ends where a part is wanted, at its length
    EndsEarly { place: usize },
    // a word after a whole term, at its start
    LeftOver { place: usize },
    // a space first, last, or second of two, at that space
    StraySpace { place: usize },
    // a word nested 33 deep, at its start
    TooDeep { place: usize },
    // a line's letter is none of the five
    UnknownLetter,
    // a line that can't stand where it does, or a file with no line
    WrongStage,
    // a line with too few or too many fields for its letter
    FieldCount,
    // the last line does not end
    Unended,
    // the file is longer than one may be
    FileTooLong,
    // the buffer is shorter than what would be written
    ShortBuffer,
    // a new class, link or item finds no place
    NamesFull,
    // a new term finds no place
    TermsFull,
    // the class has a gloss
    GlossedAlready,
    // with this gloss a class would refer to itself
    Circle,
    // a new statement or tie finds no place
    LinesFull,
    // no memory was to be had
    NoMemory,
}

// A refusal with the field it is about, counted as in a file's line: 1 the letter, 2 the class, link or item, 3 the
// term or a tie's first item, 4 its second; 0 where it is about none.
#[derive(Clone, Copy, Debug, PartialEq, Eq)]
pub struct Fault {
    pub field: usize,
    pub refusal: Refusal,
}
