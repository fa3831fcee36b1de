// Lists of bytes: parts, sums and numbers. What compares has such functions of its own, so that an error in one here is not
// in both.
use std::alloc::{AllocError, Global};

// The first `n` bytes, or all where there are fewer, and the rest.
pub(crate) fn cut(bytes: &[u8], n: usize) -> (&[u8], &[u8]) {
    bytes.split_at(n.min(bytes.len()))
}

// left ⊕ right, as long as the shorter of them
pub(crate) fn sum(heap: Global, left: &[u8], right: &[u8]) -> Result<Vec<u8>, AllocError> {
    left.iter().zip(right).map(|(a, b)| *a ^ *b).collect(heap)
}

// Adds zeros at the end, up to the next multiple of `unit`.
pub(crate) fn fill(bytes: &mut Vec<u8>, unit: usize) -> Result<(), AllocError> {
    let len = bytes.len();
    bytes.resize(len.checked_next_multiple_of(unit).unwrap_or(len), 0)
}

// The number whose bytes these are, lowest first.
pub(crate) fn number(bytes: &[u8]) -> u128 {
    bytes
        .iter()
        .rev()
        .fold(0, |value, byte| value << 8 | u128::from(*byte))
}
