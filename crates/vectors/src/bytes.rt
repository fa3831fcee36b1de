// Lists of bytes: parts, sums, and bytes to run the cases on. The reference has parts and sums of its own, so that an
// error in one of them is not in both.
use std::alloc::{AllocError, Global};

// The first `n` bytes, or all where there are fewer, and the rest.
pub(crate) fn cut(bytes: &[u8], n: usize) -> (&[u8], &[u8]) {
    bytes.split_at(n.min(bytes.len()))
}

// left ⊕ right, as long as the shorter of them
pub(crate) fn sum(heap: Global, left: &[u8], right: &[u8]) -> Result<Vec<u8>, AllocError> {
    left.iter().zip(right).map(|(a, b)| *a ^ *b).collect(heap)
}

// Adds zeros at the end, up to the next multiple of `unit`.
pub(crate) fn fill(bytes: &mut Vec<u8>, unit: usize) -> Result<(), AllocError> {
    let len = bytes.len();
    bytes.resize(len.checked_next_multiple_of(unit).unwrap_or(len), 0)
}

// The bytes without the last `n`, and these.
pub(crate) fn cut_last(bytes: &[u8], n: usize) -> (&[u8], &[u8]) {
    cut(bytes, bytes.len().saturating_sub(n))
}

pub(crate) fn joined(heap: Global, front: &[u8], back: &[u8]) -> Result<Vec<u8>, AllocError> {
    [front, back].concat(heap)
}

pub(crate) fn reversed(heap: Global, bytes: &[u8]) -> Result<Vec<u8>, AllocError> {
    bytes.iter().rev().copied().collect(heap)
}

// `len` bytes without a pattern, others for another `seed`.
pub(crate) fn sample(heap: Global, seed: u32, len: usize) -> Result<Vec<u8>, AllocError> {
    let mut all = Vec::new(heap);
    let mut x = seed;
    for _ in 0..len {
        x = x.wrapping_mul(1664525).wrapping_add(1013904223);
        all.push(x.to_le_bytes()[3])?;
    }
    Ok(all)
}
