// The mixing functions.
use crate::bytes::cut;
use crate::field::sbox;
use crate::kind::{Kind, Permutation};
use crate::layer::Layer;
use std::alloc::{AllocError, Global};

// The second implementation, with its S-box and the allocator that its lists come from.
#[derive(Drop)]
pub struct Reference {
    pub(crate) heap: Global,
    sbox: [u8; 256],
}

impl Reference {
    pub fn new(heap: Global) -> Reference {
        Reference { heap, sbox: sbox() }
    }

    // The state after mixing. Its bytes are those of the lower block and then of the upper, lowest first.
    pub fn mix(&self, kind: Kind, state: &[u8]) -> Result<Vec<u8>, AllocError> {
        match kind.permutation() {
            Some(permutation) => self.rounds(&permutation, state),
            None => self.exchanged(kind, state),
        }
    }

    fn exchanged(&self, kind: Kind, state: &[u8]) -> Result<Vec<u8>, AllocError> {
        let (lower, upper) = cut(state, kind.block_len());
        let mut all = upper.to_vec(self.heap)?;
        all.extend_from_slice(lower)?;
        Ok(all)
    }

    fn rounds(&self, permutation: &Permutation, state: &[u8]) -> Result<Vec<u8>, AllocError> {
        let mut now = state.to_vec(self.heap)?;
        for (word, place) in &permutation.constants {
            let added = self.added(*word, *place, &now)?;
            now = self.spread(&permutation.layers, added)?;
        }
        Ok(now)
    }

    // The state ⊕ word × 2^place.
    fn added(&self, word: u32, place: usize, state: &[u8]) -> Result<Vec<u8>, AllocError> {
        let mut all = state.to_vec(self.heap)?;
        let bytes = word.to_le_bytes();
        for (byte, other) in all.iter_mut().skip(place / 8).zip(&bytes) {
            *byte ^= *other;
        }
        Ok(all)
    }

    // Layer after layer, each with the S-box after it.
    fn spread(&self, layers: &[Layer], state: Vec<u8>) -> Result<Vec<u8>, AllocError> {
        let mut now = state;
        for layer in layers {
            let spread = layer.apply(self.heap, &now)?;
            now = self.substituted(&spread)?;
        }
        Ok(now)
    }

    fn substituted(&self, state: &[u8]) -> Result<Vec<u8>, AllocError> {
        state
            .iter()
            .map(|byte| self.sbox[usize::from(*byte)])
            .collect(self.heap)
    }
}
