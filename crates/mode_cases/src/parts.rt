// Parts of byte strings, cut where the string ends.

// The byte that buffers hold before a call.
pub(crate) const UNTOUCHED: u8 = 0xee;

// The first `n` bytes, and the rest. The reference has such a function too, but the tests stand without the reference.
pub(crate) fn cut(bytes: &[u8], n: usize) -> (&[u8], &[u8]) {
    bytes.split_at(n.min(bytes.len()))
}

// The first `n` bytes.
pub(crate) fn front(bytes: &[u8], n: usize) -> &[u8] {
    &bytes[..n.min(bytes.len())]
}

pub(crate) fn all_are(byte: u8, bytes: &[u8]) -> bool {
    bytes.iter().all(|b| *b == byte)
}
