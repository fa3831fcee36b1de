// What the rounds need of the words of D2, each a quarter of a word of D1.
ghost use Rattle.std.specs.Prelude.{◌≡◌, List, ℕ};
ghost use Rattle.words.specs.Bytes.{low_bytes};
ghost use Rattle.words.specs.Linear.{narrow_second, wide_second};
ghost use Rattle.artemia.specs.Artemia.{Kind, narrow, wide, substituted, four};
ghost use Rattle.artemia.specs.Lanes.{laid, HeldLaws, numbers_held};

use words::{Group, Pair, Word, couple, diffuse, substitute};

// A word of D2. Its kind, its bytes and its rule stand in `Lane` too, of other words: a trait that both extend would need
// laws that say of which.
pub trait Short: Word {
    // which of the two permutations it serves
    ghost kind: { Kind };

    // its bytes, the lowest first
    ghost held: { Self → List ℕ };

    // S at every byte. The conversions to bytes and back belong to no trait, so each width names its own. The S-box stands
    // in a closure: by its name alone, the contract of another crate's function is not found.
    fn substitute(self) -> Self
        ensures { held result ≡ substituted (held self) };

    // D2, for each width as in `Lane`.
    fn spread(x: Group<Self>) -> Group<Self>
        ensures { laid held result ≡ four kind.second_bytes kind.second (laid held x) };

    // D3.
    fn diffuse_bytes(self) -> Self
        ensures { held result ≡ kind.third (held self) };

    // what each width owes
    ghost laws: { HeldLaws kind.second_bytes held };
}

// The word of narrow D2.
impl Short for u16 {
    ghost kind = { narrow };

    ghost held = { low_bytes 2 };

    ghost laws = { numbers_held 2 };

    fn substitute(self) -> u16 {
        u16::from_le_bytes(self.to_le_bytes().map(|byte| substitute(byte)))
    }

    #[tactic(auto, using(crate::proofs::Parts::spread_is))]
    fn spread(x: Group<u16>) -> Group<u16>
        ensures { laid (low_bytes 2) result ≡ four 2 narrow_second (laid (low_bytes 2) x) }
    {
        diffuse(x)
    }

    #[tactic(auto, using(crate::proofs::Rules::two_is, words::proofs::Conversions::of_low), unfolding(words::specs::Bytes::low_bytes))]
    fn diffuse_bytes(self) -> u16 {
        let [x0, x1] = self.to_le_bytes();
        let y = couple(Pair { x0, x1 });
        u16::from_le_bytes([y.x0, y.x1])
    }
}

// The word of wide D2.
impl Short for u32 {
    ghost kind = { wide };

    ghost held = { low_bytes 4 };

    ghost laws = { numbers_held 4 };

    fn substitute(self) -> u32 {
        u32::from_le_bytes(self.to_le_bytes().map(|byte| substitute(byte)))
    }

    #[tactic(auto, using(crate::proofs::Parts::spread_is))]
    fn spread(x: Group<u32>) -> Group<u32>
        ensures { laid (low_bytes 4) result ≡ four 4 wide_second (laid (low_bytes 4) x) }
    {
        diffuse(x)
    }

    #[tactic(auto, using(crate::proofs::Rules::four_is, words::proofs::Conversions::of_low), unfolding(words::specs::Bytes::low_bytes))]
    fn diffuse_bytes(self) -> u32 {
        let [x0, x1, x2, x3] = self.to_le_bytes();
        let y = diffuse(Group { x0, x1, x2, x3 });
        u32::from_le_bytes([y.x0, y.x1, y.x2, y.x3])
    }
}
