// The mode: a chain of blocks under one mixer.
use crate::bytes::{cut, sum};
use crate::padding::MESSAGE_MAX;
use crate::reference::Reference;
use crate::refusal::{Failure, Refusal};
use crate::setting::Setting;
use std::alloc::AllocError;

// The chain between two mixings: the blocks x' and x, and the block m that came in last.
#[derive(Drop)]
struct Link {
    upper: Vec<u8>,
    lower: Vec<u8>,
    last: Vec<u8>,
}

// The chains under one setting.
#[derive(Clone, Copy)]
struct Mode<'a> {
    reference: &'a Reference,
    setting: Setting<'a>,
}

// The next x' and m where a message is sealed, from y' ⊕ m and m.
fn sealing(sum: Vec<u8>, block: Vec<u8>) -> (Vec<u8>, Vec<u8>) {
    (sum, block)
}

// The same where a ciphertext is opened: its block is x', and m is y' ⊕ x'.
fn opening(sum: Vec<u8>, block: Vec<u8>) -> (Vec<u8>, Vec<u8>) {
    (block, sum)
}

impl Reference {
    // Ciphertext and then tag.
    pub fn seal(&self, setting: &Setting, message: &[u8]) -> Result<Vec<u8>, Failure> {
        setting.judge()?;
        if message.len() > MESSAGE_MAX {
            return Err(Refusal::MessageTooLong.into());
        }
        let mode = Mode::of(self, *setting);
        let padded = setting.padded(self.heap, message)?;
        let (mut sealed, end) = mode.run(mode.after_data()?, &padded, sealing)?;
        sealed.extend_from_slice(&mode.tag(&end)?)?;
        Ok(sealed)
    }

    // The message.
    pub fn open(&self, setting: &Setting, cipher: &[u8], tag: &[u8]) -> Result<Vec<u8>, Failure> {
        setting.judge()?;
        setting.judge_cipher(cipher, tag)?;
        let mode = Mode::of(self, *setting);
        let (padded, end) = mode.run(mode.after_data()?, cipher, opening)?;
        if mode.tag(&end)?.as_slice() != tag {
            return Err(Refusal::NotAuthentic.into());
        }
        setting.unpadded(self.heap, &padded)
    }
}

impl<'a> Mode<'a> {
    fn of(reference: &'a Reference, setting: Setting<'a>) -> Mode<'a> {
        Mode { reference, setting }
    }

    // The mixing of a link: y' and y.
    fn mixed(&self, link: &Link) -> Result<(Vec<u8>, Vec<u8>), AllocError> {
        let heap = self.reference.heap;
        let kind = self.setting.kind;
        let mut state = link.lower.clone()?;
        state.extend_from_slice(&link.upper)?;
        let state = self.reference.mix(kind, &state)?;
        let (lower, upper) = cut(&state, kind.block_len());
        Ok((upper.to_vec(heap)?, lower.to_vec(heap)?))
    }

    // Runs the chain over `text`, and answers y' ⊕ block for each block of it, and the last link. `turn` says which
    // of the two is the next x' and which is the next m.
    fn run<F: Fn(Vec<u8>, Vec<u8>) -> (Vec<u8>, Vec<u8>)>(
        &self,
        start: Link,
        text: &[u8],
        turn: F,
    ) -> Result<(Vec<u8>, Link), AllocError>
        requires { F.IsAlwaysCallable turn }
    {
        let heap = self.reference.heap;
        let mut out = Vec::new(heap);
        let mut link = start;
        for block in text.chunks(self.setting.kind.block_len()) {
            let (upper, lower) = self.mixed(&link)?;
            let added = sum(heap, &upper, block)?;
            out.extend_from_slice(&added)?;
            let lower = sum(heap, &lower, &link.last)?;
            let (upper, last) = turn(added, block.to_vec(heap)?);
            link = Link { upper, lower, last };
        }
        Ok((out, link))
    }

    // The chain from its start through the data.
    fn after_data(&self) -> Result<Link, AllocError> {
        let heap = self.reference.heap;
        let mut nonce = self.setting.nonce.to_vec(heap)?;
        nonce.resize(self.setting.kind.block_len(), 0)?;
        let start = Link {
            upper: nonce.clone()?,
            lower: self.setting.key.to_vec(heap)?,
            last: nonce,
        };
        let (_sums, link) = self.run(start, &self.setting.padded_data(heap)?, sealing)?;
        Ok(link)
    }

    // The tag at the end of a chain.
    fn tag(&self, end: &Link) -> Result<Vec<u8>, AllocError> {
        let heap = self.reference.heap;
        let (_upper, lower) = self.mixed(end)?;
        sum(heap, &sum(heap, &lower, &end.last)?, self.setting.key)
    }
}
