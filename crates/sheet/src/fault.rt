// Why a call on a sheet or its text is refused, and where.
ghost use Rattle.std.specs.Prelude.{◌≡◌};
ghost use Rattle.sheet.specs.declared.fault.Fault.TheVariants.{Column};

mod codes;
mod words;

// A column of a text. Lines count from 0, columns from 1; the end of a line is its column 4.
#[derive(Clone, Copy, Debug, PartialEq, Eq)]
pub struct Place {
    pub line: usize,
    pub column: usize,
}

// What is wrong with a column: it holds no number that is written as it should be (or is no line end), or another than
// may stand there.
#[derive(Clone, Copy, Debug, PartialEq, Eq)]
pub enum ColumnFault {
    Shape(Place),
    Range(Place),
}

// Why a call is refused. docs/REFUSALS.md says when, and in which order.
#[derive(Clone, Copy, Debug, PartialEq, Eq)]
pub enum Fault {
    BufferTooShort,
    TextLength,
    Column(ColumnFault),
    OffSheet,
    NoSuchZone,
}

impl From<ColumnFault> for Fault {
    ghost from_gives = { λ e r. r ≡ Column e };

    fn from(e: ColumnFault) -> Fault {
        Fault::Column(e)
    }
}
