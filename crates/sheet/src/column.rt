// A column of text that holds a number: spaces, and then the number up to the column's end.
ghost use Rattle.std.specs.Prelude.{◌≡◌, ◌≤◌, length, drop, IfOk, OnOk, IsTrue};
ghost use Rattle.sheet.specs.Columns.{column_at, unspaced, allows, between, read_column, column_of};

use crate::fault::{ColumnFault, Place};
use crate::numeral::Numeral;
use itoa::Buffer;

// Where a column stands, and the least and the most that it may hold.
#[derive(Clone, Copy)]
pub(crate) struct Column<N> {
    place: Place,
    least: N,
    most: N,
}

impl<N: Numeral> Column<N> {
    // The column `number` of a line.
    pub(crate) fn at(line: usize, number: usize, least: N, most: N) -> Self
        ensures { result ≡ column_at line number least most }
    {
        let place = Place {
            line,
            column: number,
        };
        Column { place, least, most }
    }

    // The number, if the column may hold it.
    pub(crate) fn check(self, n: N) -> Result<N, ColumnFault>
        ensures value { result ≡ between N.numerals self n }
        ensures bounds { OnOk result (IsTrue (allows N.numerals self n)) }
    {
        if self.least <= n && n <= self.most {
            Ok(n)
        } else {
            Err(ColumnFault::Range(self.place))
        }
    }

    // The number that stands in the column. No column has more than nine bytes, so that the number fits.
    pub(crate) fn read(self, bytes: &[u8]) -> Result<N, ColumnFault>
        requires { length bytes.now ≤ 9 }
        ensures value { result ≡ read_column N.numerals self bytes.now }
        ensures bounds { IfOk result (λ n. IsTrue (allows N.numerals self n)) }
    {
        let text = behind_spaces(bytes);
        let n = N::read(text).ok_or(ColumnFault::Shape(self.place))?;
        self.check(n)
    }
}

// What follows the spaces in front.
fn behind_spaces(bytes: &[u8]) -> &[u8]
    ensures { result.now ≡ unspaced bytes.now }
{
    let from = bytes.iter().position(|b| *b != b' ');
    &bytes[from.unwrap_or(bytes.len())..]
}

// Writes the number at the right end of a column, with spaces before it.
pub(crate) fn write_column<N: Numeral>(out: &mut [u8], n: N)
    requires { length (N.numerals.text n) ≤ length out.old }
    ensures { out.new ≡ column_of N.numerals (length out.old) n }
{
    let mut buffer = Buffer::new();
    let text = buffer.format(n).as_bytes();
    let (front, end) = out.split_at_mut(out.len() - text.len());
    front.fill(b' ');
    end.copy_from_slice(text);
}
