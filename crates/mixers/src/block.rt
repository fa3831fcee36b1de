// A block of `B` bytes. Where it is read as a number, byte i is bits 8 i to 8 i + 7.
ghost use Rattle.std.specs.Prelude.{◌≡◌, ◌≤◌, ◌++◌, length, drop, replicate};
ghost use Rattle.words.specs.Bytes.{xor_bytes};
ghost use Rattle.mixers.specs.Blocks.{block_of};

#[derive(Clone, Copy, Debug, PartialEq, Eq)]
pub struct Block<const B: usize> {
    pub bytes: [u8; B],
    // A proof knows the length of an array whose length is a parameter only until a call or a loop writes it.
    ghost sized: { length bytes ≡ B },
}

impl<const B: usize> Block<B> {
    pub fn zeros() -> Self
        ensures { result.bytes ≡ replicate B 0 }
    {
        Block { bytes: [0; B] }
    }

    // The first `B` of `bytes`, with zeros after them where there are fewer.
    pub fn of(bytes: &[u8]) -> Self
        ensures { result.bytes ≡ block_of B bytes.now }
    {
        let n = bytes.len().min(B);
        let mut block = [0; B];
        block[..n].copy_from_slice(&bytes[..n]);
        Block { bytes: block }
    }

    // self := self ⊕ other
    pub fn xor(&mut self, other: &Block<B>)
        ensures { self.new.bytes ≡ xor_bytes self.old.bytes other.now.bytes }
    {
        // Over `iter_mut().zip(..)` a proof learns nothing of what is written, nor with `array::from_fn` of what is answered.
        for (i, byte) in self.bytes.iter_mut().enumerate() {
            *byte ^= other.bytes[i];
        }
    }
}
