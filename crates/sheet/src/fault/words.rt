// Faults as a person reads them.
ghost use Rattle.std.specs.Prelude.{Some};
ghost use Rattle.sheet.specs.Words.{place_words, column_words, fault_words};

use super::{ColumnFault, Fault, Place};
use std::error::Error;
use std::fmt;

impl fmt::Display for Place {
    ghost output = { λ it. Some (place_words it) };

    fn fmt<W: fmt::Write>(&self, f: &mut fmt::Formatter<W>) -> fmt::Result {
        write!(f, "line {}, column {}", self.line, self.column)
    }
}

impl fmt::Display for ColumnFault {
    ghost output = { λ it. Some (column_words it) };

    fn fmt<W: fmt::Write>(&self, f: &mut fmt::Formatter<W>) -> fmt::Result {
        match self {
            ColumnFault::Shape(place) => write!(f, "{place} is not written as it should be"),
            ColumnFault::Range(place) => write!(f, "{place} may not hold this number"),
        }
    }
}

impl Error for ColumnFault {}

impl fmt::Display for Fault {
    ghost output = { λ it. Some (fault_words it) };

    fn fmt<W: fmt::Write>(&self, f: &mut fmt::Formatter<W>) -> fmt::Result {
        match self {
            Fault::BufferTooShort => write!(f, "the buffer is shorter than the text"),
            Fault::TextLength => write!(f, "no sheet's text has this length"),
            Fault::Column(fault) => write!(f, "{fault}"),
            Fault::OffSheet => write!(f, "the position is not below the width"),
            Fault::NoSuchZone => write!(f, "there is no such zone"),
        }
    }
}

impl Error for Fault {}
