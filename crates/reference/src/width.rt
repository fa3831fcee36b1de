// How wide a word is. A word is a number in a u128, below 2 to the power of its width. An enum and not the number of
// bytes, so that this is known to lie from 1 to 16.
ghost use Rattle.std.specs.Prelude.{◌≤◌};

#[derive(Clone, Copy, Debug, PartialEq, Eq)]
pub(crate) enum Width {
    Eight,
    Sixteen,
    ThirtyTwo,
    SixtyFour,
    Full,
}

impl Width {
    pub(crate) fn bytes(self) -> usize
        ensures least { 1 ≤ result }
        ensures most { result ≤ 16 }
    {
        match self {
            Width::Eight => 1,
            Width::Sixteen => 2,
            Width::ThirtyTwo => 4,
            Width::SixtyFour => 8,
            Width::Full => 16,
        }
    }

    // Drops the bits that fall out of a word.
    pub(crate) fn cut(self, value: u128) -> u128 {
        value & u128::MAX >> (128 - 8 * self.bytes())
    }
}
