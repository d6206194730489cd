ghost use Rattle.std.specs.Prelude.{Some};
ghost use Rattle.lines.specs.FaultLine.{fault_line};
ghost use Rattle.names.specs.Refusal.{number, place_of};

use names::Fault;
use std::error::Error;
use std::fmt;

// A fault, and the number of the line that it is in; 0 where it is about the whole file.
#[derive(Clone, Copy, Debug, PartialEq, Eq)]
pub struct Located {
    pub line: usize,
    pub fault: Fault,
}

// The line of a report that tells it.
impl fmt::Display for Located {
    ghost output = { λ l. Some (fault_line l.line l.fault.field (number l.fault.refusal) (place_of l.fault.refusal)) };

    fn fmt<W: fmt::Write>(&self, f: &mut fmt::Formatter<W>) -> fmt::Result {
        let line = self.line;
        let field = self.fault.field;
        let number = self.fault.refusal.number();
        let place = self.fault.refusal.place();
        write!(f, "F\t{line}\t{field}\t{number}\t{place}\n")
    }
}

impl Error for Located {}
