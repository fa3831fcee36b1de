// The padding of data and message.
use crate::bytes::{cut, fill};
use crate::refusal::{Failure, Refusal};
use crate::setting::Setting;
use std::alloc::{AllocError, Global};

const TRAILER_LEN: usize = 13;

pub(crate) const MESSAGE_MAX: usize = 65536;

fn bits(bytes: usize) -> u128 {
    (bytes as u128).wrapping_mul(8)
}

// How many bytes there are without the zeros at the end.
fn used_len(all: &[u8]) -> usize {
    match all.iter().rposition(|byte| *byte != 0) {
        Some(last) => last.saturating_add(1),
        None => 0,
    }
}

impl Setting<'_> {
    // pad(A): nothing for nothing; else a byte 1 and zeros after it.
    pub(crate) fn padded_data(&self, heap: Global) -> Result<Vec<u8>, AllocError> {
        let mut all = self.ad.to_vec(heap)?;
        if !self.ad.is_empty() {
            all.push(1)?;
        }
        fill(&mut all, self.kind.block_len())?;
        Ok(all)
    }

    // The number ν + 2^w × (α + 2^24 × (μ + 2^64)), which tells the lengths of nonce, data and message in bits.
    fn trailer(&self, message: usize) -> u128 {
        let message_part = bits(message).wrapping_add(1 << 64).wrapping_mul(1 << 24);
        let rest = bits(self.ad.len()).wrapping_add(message_part);
        rest.wrapping_mul(1 << self.kind.nonce_bits())
            .wrapping_add(bits(self.nonce.len()))
    }

    // pad(M)
    pub(crate) fn padded(&self, heap: Global, message: &[u8]) -> Result<Vec<u8>, AllocError> {
        let mut all = message.to_vec(heap)?;
        let trailer = self.trailer(message.len()).to_le_bytes();
        all.extend_from_slice(&trailer[..TRAILER_LEN])?;
        fill(&mut all, self.kind.block_len())?;
        Ok(all)
    }

    // The message whose padding this is: what stands before the trailer, if padding it gives the same again.
    pub(crate) fn unpadded(&self, heap: Global, all: &[u8]) -> Result<Vec<u8>, Failure> {
        let (message, _rest) = cut(all, used_len(all).saturating_sub(TRAILER_LEN));
        if message.len() > MESSAGE_MAX || self.padded(heap, message)?.as_slice() != all {
            return Err(Refusal::NotAuthentic.into());
        }
        Ok(message.to_vec(heap)?)
    }
}
