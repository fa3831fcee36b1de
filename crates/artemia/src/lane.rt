// What the rounds need of the words of D1, each a quarter of a state.
ghost use Rattle.std.specs.Prelude.{◌≡◌, ℕ, List, refl};
ghost use Rattle.words.specs.Bytes.{low_bytes, xor_bytes};
ghost use Rattle.words.specs.Linear.{narrow_first, wide_first};
ghost use Rattle.artemia.specs.Artemia.{Kind, narrow, wide, four, parts, substituted};
ghost use Rattle.artemia.specs.Lanes.{laid, finished, HeldLaws, numbers_held, Constants, narrow_constants, wide_constants};

use crate::short::Short;
use words::{Group, Word, diffuse};

// A word of D1, with what tells one width from the other.
pub trait Lane: Word {
    // the words of D2 in it
    type Short: Short;

    // which of the two permutations it serves
    ghost kind: { Kind };

    // its bytes, the lowest first
    ghost held: { Self → List ℕ };

    // Exclusive or with a number of 64 bits. In generic code the conversion would bring a law of its own.
    fn add_low(self, low: u64) -> Self
        ensures { held result ≡ xor_bytes (held self) (low_bytes kind.first_bytes low) };

    // D1. A proof in generic code learns no range of a word, so each width says this of itself.
    fn spread(x: Group<Self>) -> Group<Self>
        ensures { laid held result ≡ four kind.first_bytes kind.first (laid held x) };

    // Its quarters, the lowest first. Generic conversions, sums and shifts would bring what each of them asks and gives, so
    // each width cuts and joins for itself.
    fn cut(self) -> Group<Self::Short>
        ensures { laid Self.Short.held result ≡ held self };

    fn join(quarters: Group<Self::Short>) -> Self
        ensures { held result ≡ laid Self.Short.held quarters };

    // The quarters, with S at every byte.
    fn substitute_quarters(self) -> Group<Self::Short>
        ensures { laid Self.Short.held result ≡ substituted (held self) }
    {
        self.cut().map(Short::substitute)
    }

    // What a round does to a word after D1: S, D2, S, D3, S.
    fn finish(self) -> Self
        ensures { held result ≡ finished kind (held self) }
    {
        Self::join(diffuse_quarters(Self::Short::spread(self.substitute_quarters())))
    }

    // what each width owes
    ghost laws: { HeldLaws kind.first_bytes held };

    ghost one_kind: { Self.Short.kind ≡ kind };

    ghost constants: { Constants kind };
}

// S, D3 and S at each of four words of D2.
fn diffuse_quarters<S: Short>(x: Group<S>) -> Group<S>
    ensures { laid S.held result ≡ substituted (parts S.kind.second_bytes 4 S.kind.third (substituted (laid S.held x))) }
{
    x.map(|y| y.substitute().diffuse_bytes().substitute())
}

// The word of narrow D1.
impl Lane for u64 {
    type Short = u16;

    ghost kind = { narrow };

    ghost held = { low_bytes 8 };

    ghost laws = { numbers_held 8 };

    ghost one_kind = { refl };

    ghost constants = { narrow_constants };

    #[tactic(auto, using(words::proofs::Bytes::low_xor))]
    fn add_low(self, low: u64) -> u64 {
        self ^ low
    }

    #[tactic(auto, using(crate::proofs::Parts::spread_is))]
    fn spread(x: Group<u64>) -> Group<u64>
        ensures { laid (low_bytes 8) result ≡ four 8 narrow_first (laid (low_bytes 8) x) }
    {
        diffuse(x)
    }

    fn cut(self) -> Group<u16> {
        Group {
            x0: (self & 0xffff) as u16,
            x1: (self >> 16 & 0xffff) as u16,
            x2: (self >> 32 & 0xffff) as u16,
            x3: (self >> 48) as u16,
        }
    }

    #[tactic(auto, using(crate::proofs::Quarters::join_is))]
    fn join(quarters: Group<u16>) -> u64
        ensures { low_bytes 8 result ≡ laid (low_bytes 2) quarters }
    {
        let Group { x0, x1, x2, x3 } = quarters;
        u64::from(x0) + (u64::from(x1) << 16) + (u64::from(x2) << 32) + (u64::from(x3) << 48)
    }
}

// The word of wide D1.
impl Lane for u128 {
    type Short = u32;

    ghost kind = { wide };

    ghost held = { low_bytes 16 };

    ghost laws = { numbers_held 16 };

    ghost one_kind = { refl };

    ghost constants = { wide_constants };

    #[tactic(auto, using(words::proofs::Bytes::low_xor))]
    fn add_low(self, low: u64) -> u128 {
        self ^ u128::from(low)
    }

    #[tactic(auto, using(crate::proofs::Parts::spread_is))]
    fn spread(x: Group<u128>) -> Group<u128>
        ensures { laid (low_bytes 16) result ≡ four 16 wide_first (laid (low_bytes 16) x) }
    {
        diffuse(x)
    }

    fn cut(self) -> Group<u32> {
        Group {
            x0: (self & 0xffff_ffff) as u32,
            x1: (self >> 32 & 0xffff_ffff) as u32,
            x2: (self >> 64 & 0xffff_ffff) as u32,
            x3: (self >> 96) as u32,
        }
    }

    #[tactic(auto, using(crate::proofs::Quarters::join_is))]
    fn join(quarters: Group<u32>) -> u128
        ensures { low_bytes 16 result ≡ laid (low_bytes 4) quarters }
    {
        let Group { x0, x1, x2, x3 } = quarters;
        u128::from(x0) + (u128::from(x1) << 32) + (u128::from(x2) << 64) + (u128::from(x3) << 96)
    }
}
