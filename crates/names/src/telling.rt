ghost use Rattle.std.specs.Prelude.{◌≡◌};
ghost use Rattle.names.specs.Refusal.{number, place_of};

use crate::refusals::Refusal;

impl Refusal {
    // The number by which a report tells the refusal.
    pub fn number(self) -> u8
        ensures { result ≡ number self }
    {
        match self {
            Refusal::BadName { place: _ } => 1,
            Refusal::BadOperator { place: _ } => 2,
            Refusal::EndsEarly { place: _ } => 3,
            Refusal::LeftOver { place: _ } => 4,
            Refusal::StraySpace { place: _ } => 5,
            Refusal::TooDeep { place: _ } => 6,
            Refusal::UnknownLetter => 7,
            Refusal::WrongStage => 8,
            Refusal::FieldCount => 9,
            Refusal::Unended => 10,
            Refusal::FileTooLong => 11,
            Refusal::ShortBuffer => 12,
            Refusal::NamesFull => 14,
            Refusal::TermsFull => 15,
            Refusal::GlossedAlready => 16,
            Refusal::Circle => 17,
            Refusal::LinesFull => 18,
            Refusal::NoMemory => 100,
        }
    }

    // Where in the term, in bytes from 0; 0 where the refusal is not about a place.
    pub fn place(self) -> usize
        ensures { result ≡ place_of self }
    {
        match self {
            Refusal::BadName { place }
            | Refusal::BadOperator { place }
            | Refusal::EndsEarly { place }
            | Refusal::LeftOver { place }
            | Refusal::StraySpace { place }
            | Refusal::TooDeep { place } => place,
            _ => 0,
        }
    }
}
