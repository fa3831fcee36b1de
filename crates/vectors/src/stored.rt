// The stored vectors, in our byte order: both implementations seal each to the stored bytes, and open these again.
use crate::case::Case;
use crate::fields::{Fields, each_line, unhex};
use crate::sides::Sides;

// A line has mixer, key, nonce, data, message, ciphertext and tag.
fn compare(sides: &Sides, number: usize, line: &str) -> anyhow::Result<()> {
    let mut fields = Fields::of(line);
    let kind = fields.kind()?;
    let inputs = fields.inputs(sides.heap, unhex)?;
    let case = Case::of(kind, "stored vector of line", number);
    let sealed = sides.round_trip(case, &inputs.setting(kind), &inputs.message)?;
    if sealed != fields.sealed(sides.heap)? {
        return Err(case.fails("both seal to other bytes than the stored ones"));
    }
    Ok(())
}

// All the vectors of a file; answers how many.
pub(crate) fn stored_vectors(sides: &Sides, text: &str) -> anyhow::Result<usize> {
    each_line(text, |number, line| compare(sides, number, line))
}
