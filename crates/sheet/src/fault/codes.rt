// The codes by which faults are known outside of the program.
ghost use Rattle.std.specs.Prelude.{◌≡◌};
ghost use Rattle.sheet.specs.Faults.{code_of, place_of};

use super::{ColumnFault, Fault, Place};

impl Fault {
    // Its number in docs/REFUSALS.md. By a match: an enum whose variants carry values takes no discriminants.
    pub fn code(self) -> u8
        ensures { result ≡ code_of self }
    {
        match self {
            Fault::BufferTooShort => 6,
            Fault::TextLength => 8,
            Fault::Column(ColumnFault::Shape(_)) => 9,
            Fault::Column(ColumnFault::Range(_)) => 10,
            Fault::OffSheet => 17,
            Fault::NoSuchZone => 18,
        }
    }

    // The line and column of a text that it is about, if it is about one.
    pub fn place(self) -> Option<Place>
        ensures { result ≡ place_of self }
    {
        match self {
            Fault::Column(ColumnFault::Shape(place) | ColumnFault::Range(place)) => Some(place),
            _ => None,
        }
    }
}
