// The two-word rule, on the bytes of narrow D3.
ghost use Rattle.std.specs.Prelude.{◌≡◌, bit_xor};
ghost use Rattle.words.specs.Diffusion.{coupled};
ghost use Rattle.words.specs.Linear.{narrow_third};

// Two bytes. A struct, since an array is a list of any length in a definition.
#[derive(Clone, Copy, Debug, PartialEq, Eq)]
pub struct Pair {
    pub x0: u8,
    pub x1: u8,
}

// Turns X0 and X1 into Y0 and Y1.
pub fn couple(x: Pair) -> Pair
    ensures { result ≡ coupled bit_xor narrow_third x }
{
    let y0 = x.x0 ^ linear(x.x1);
    let y1 = x.x1 ^ linear(y0);
    Pair { x0: y0, x1: y1 }
}

// L of narrow D3, which is not that of `u8` as a `Word`.
fn linear(x: u8) -> u8
    ensures { result ≡ narrow_third x }
{
    (x << 1) ^ (x >> 3)
}
