// The S-box, computed from the field of 256 elements: bytes as polynomials modulo x^8 + x^4 + x^3 + x + 1.

// a times x
fn doubled(a: u8) -> u8 {
    if a < 128 { a << 1 } else { a << 1 ^ 0x1b }
}

// a times b, bit by bit of b
fn product(a: u8, b: u8) -> u8 {
    let mut shifted = a;
    let mut left = b;
    let mut all = 0;
    for _ in 0..8 {
        if left % 2 == 1 {
            all ^= shifted;
        }
        shifted = doubled(shifted);
        left /= 2;
    }
    all
}

// The inverse is the power 254; of 0 it is 0.
fn inverse(a: u8) -> u8 {
    (0..254).fold(1, |power, _| product(power, a))
}

fn substitute(a: u8) -> u8 {
    let b = inverse(a);
    b ^ b.rotate_left(1) ^ b.rotate_left(2) ^ b.rotate_left(3) ^ b.rotate_left(4) ^ 0x63
}

// What stands for each byte.
pub(crate) fn sbox() -> [u8; 256] {
    let mut table = [0; 256];
    for (byte, entry) in (0..=255u8).zip(&mut table) {
        *entry = substitute(byte);
    }
    table
}
