// Lines of a file and their fields.
use crate::bytes::cut;
use crate::inputs::Inputs;
use anyhow::ensure;
use reference::Kind;
use std::alloc::Global;
use std::str::SplitWhitespace;

// The bytes that two digits each stand for; `-` stands for none. Whole pairs are judged before one digit that is left over.
pub(crate) fn unhex(heap: Global, text: &str) -> anyhow::Result<Vec<u8>> {
    if text == "-" {
        return Ok(Vec::new(heap));
    }
    let digits = text.as_bytes();
    let (pairs, odd) = cut(digits, digits.len() / 2 * 2);
    small_digits(pairs)?;
    ensure!(odd.is_empty(), "a field has an odd number of digits");
    Ok(hex::decode(heap, pairs)?)
}

// The files have no capital digits.
pub(crate) fn small_digits(digits: &[u8]) -> anyhow::Result<()> {
    ensure!(
        digits
            .iter()
            .all(|digit| matches!(*digit, b'0'..=b'9' | b'a'..=b'f')),
        "a field has what is no digit"
    );
    Ok(())
}

// Calls `each` with number and text of each line that is no comment; answers how many there are. They are counted by
// hand: over a `filter` the loop's proof did not close.
pub(crate) fn each_line<F: FnMut(usize, &str) -> anyhow::Result<()>>(
    text: &str,
    mut each: F,
) -> anyhow::Result<usize>
    requires { F.IsAlwaysCallable each }
{
    let mut count = 0usize;
    for (number, line) in (1..).zip(text.lines()) {
        if !line.starts_with('#') {
            each(number, line)?;
            count = count.saturating_add(1);
        }
    }
    Ok(count)
}

// The fields of a line, between spaces, from the next one on. Past the last there is no text.
#[derive(Drop)]
pub(crate) struct Fields<'a> {
    rest: SplitWhitespace<'a>,
}

impl<'a> Fields<'a> {
    pub(crate) fn of(line: &'a str) -> Fields<'a> {
        Fields {
            rest: line.split_whitespace(),
        }
    }

    pub(crate) fn next(&mut self) -> &'a str {
        self.rest.next().unwrap_or("")
    }

    // The mixer that the next field names.
    pub(crate) fn kind(&mut self) -> anyhow::Result<Kind> {
        Ok(self.next().parse::<Kind>()?)
    }

    // Key, nonce, data and message in the next four fields, each as `read` reads it.
    pub(crate) fn inputs<F: Fn(Global, &str) -> anyhow::Result<Vec<u8>>>(
        &mut self,
        heap: Global,
        read: F,
    ) -> anyhow::Result<Inputs>
        requires { F.IsAlwaysCallable read }
    {
        Ok(Inputs {
            key: read(heap, self.next())?,
            nonce: read(heap, self.next())?,
            ad: read(heap, self.next())?,
            message: read(heap, self.next())?,
        })
    }

    // The next two fields, ciphertext and tag, as one list of bytes.
    pub(crate) fn sealed(&mut self, heap: Global) -> anyhow::Result<Vec<u8>> {
        let mut all = unhex(heap, self.next())?;
        all.extend_from_slice(&unhex(heap, self.next())?)?;
        Ok(all)
    }
}
