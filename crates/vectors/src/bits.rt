// Strings of bits, most significant first: a list of zeros and ones.
use crate::bytes::cut_last;
use crate::fields::small_digits;
use anyhow::Context;
use std::alloc::{AllocError, Global};

// The bits of a field HEX/BITS: so many low bits of the number. `-` has none.
pub(crate) fn bits_of(heap: Global, field: &str) -> anyhow::Result<Vec<u8>> {
    if field == "-" {
        return Ok(Vec::new(heap));
    }
    let (digits, count) = field
        .split_once('/')
        .context("a field of bits has no count")?;
    let all = digits_bits(heap, digits)?;
    let (_high, low) = cut_last(&all, count.parse::<usize>()?);
    Ok(low.to_vec(heap)?)
}

fn digits_bits(heap: Global, digits: &str) -> anyhow::Result<Vec<u8>> {
    small_digits(digits.as_bytes())?;
    let mut all = Vec::new(heap);
    for digit in digits.chars() {
        let value = digit.to_digit(16).context("a field has what is no digit")?;
        push_number(&mut all, value as usize, 4)?;
    }
    Ok(all)
}

// The `width` low bits of a number.
pub(crate) fn push_number(bits: &mut Vec<u8>, value: usize, width: u32) -> Result<(), AllocError> {
    for place in (0..width).rev() {
        bits.push((value.unbounded_shr(place) % 2) as u8)?;
    }
    Ok(())
}

// Zeros in front, up to `len` bits.
pub(crate) fn extended(heap: Global, bits: &[u8], len: usize) -> Result<Vec<u8>, AllocError> {
    let mut all = vec![in heap; 0u8; len.saturating_sub(bits.len())]?;
    all.extend_from_slice(bits)?;
    Ok(all)
}

// Eight bits to a byte.
pub(crate) fn packed(heap: Global, bits: &[u8]) -> Result<Vec<u8>, AllocError> {
    bits.chunks(8).map(byte_of).collect(heap)
}

fn byte_of(bits: &[u8]) -> u8 {
    bits.iter().fold(0, |byte, bit| byte << 1 | *bit)
}
