// The diffusion layers: groups of two or four words, spread over one another.
ghost use Rattle.std.specs.Prelude.{◌<◌, ◌≤◌};

use crate::bytes::number;
use crate::width::Width;
use std::alloc::{AllocError, Global};

// The function L on words. Spread and rule are enums, with a `match` each: a layer is a row of a table, and a function
// in a row would be a pointer.
#[derive(Clone, Copy, Debug, PartialEq, Eq)]
pub(crate) enum Spread {
    // (X << 1) ⊕ (X >> so many)
    Right(u32),
    // X ⊕ (X << 1), then rotated left by 1, on bytes
    Turned,
}

#[derive(Clone, Copy, Debug, PartialEq, Eq)]
pub(crate) enum Rule {
    TwoWords,
    FourWords,
}

#[derive(Clone, Copy, Debug, PartialEq, Eq)]
pub(crate) struct Layer {
    pub(crate) width: Width,
    pub(crate) spread: Spread,
    pub(crate) rule: Rule,
}

impl Layer {
    fn spread(self, x: u128) -> u128 {
        let doubled = x << 1;
        let value = match self.spread {
            Spread::Right(by) => doubled ^ x.unbounded_shr(by),
            Spread::Turned => {
                let t = self.width.cut(x ^ doubled);
                t << 1 | t >> 7
            }
        };
        self.width.cut(value)
    }

    fn two(self, [x0, x1]: [u128; 2]) -> [u128; 2] {
        let y0 = x0 ^ self.spread(x1);
        let y1 = x1 ^ self.spread(y0);
        [y0, y1]
    }

    fn four(self, [x0, x1, x2, x3]: [u128; 4]) -> [u128; 4] {
        let y0 = x0 ^ x2 ^ x3 ^ self.spread(x1 ^ x3);
        let y1 = x1 ^ x3 ^ y0 ^ self.spread(x2 ^ y0);
        let y2 = x2 ^ y0 ^ y1 ^ self.spread(x3 ^ y1);
        let y3 = x3 ^ y1 ^ y2 ^ self.spread(y0 ^ y2);
        [y0, y1, y2, y3]
    }

    // The words of a group, lowest first; past its end they are 0.
    fn words<const N: usize>(self, group: &[u8]) -> [u128; N]
        requires { N ≤ 4 }
    {
        let mut words = [0; N];
        let parts = group.chunks(self.width.bytes());
        for (word, part) in words.iter_mut().zip(parts) {
            *word = number(part);
        }
        words
    }

    // The bytes of a group.
    fn group_len(self) -> usize
        ensures { 0 < result }
    {
        match self.rule {
            Rule::TwoWords => 2 * self.width.bytes(),
            Rule::FourWords => 4 * self.width.bytes(),
        }
    }

    // Writes words, lowest first.
    fn write(self, words: &[u128], out: &mut Vec<u8>) -> Result<(), AllocError> {
        for word in words {
            out.extend(word.to_le_bytes().iter().take(self.width.bytes()).copied())?;
        }
        Ok(())
    }

    // Writes the words of one group after it was spread. Of the last group, which may be cut short, as many bytes are kept
    // as it has.
    fn append(self, group: &[u8], out: &mut Vec<u8>) -> Result<(), AllocError> {
        let end = out.len().saturating_add(group.len());
        match self.rule {
            Rule::TwoWords => self.write(&self.two(self.words(group)), out)?,
            Rule::FourWords => self.write(&self.four(self.words(group)), out)?,
        }
        out.truncate(end);
        Ok(())
    }

    // The state after this layer.
    pub(crate) fn apply(self, heap: Global, state: &[u8]) -> Result<Vec<u8>, AllocError> {
        let mut out = Vec::new(heap);
        for group in state.chunks(self.group_len()) {
            self.append(group, &mut out)?;
        }
        Ok(out)
    }
}
