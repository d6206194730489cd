// The kinds of line, by the letter in their first field.
#[derive(Clone, Copy, Debug, PartialEq, Eq)]
pub enum Letter {
    Heading,
    Gloss,
    Statement,
    Tie,
    Question,
}

// How far a file was read: nothing yet, its lines from the heading on, or its questions.
#[derive(Clone, Copy, Debug, PartialEq, Eq)]
pub enum Stage {
    Start,
    Lines,
    Questions,
}
