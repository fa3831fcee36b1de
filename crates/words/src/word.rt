// What a word is to the diffusion, and the words that the machine has.
ghost use Rattle.std.specs.Prelude.{◌≡◌, bit_xor};
ghost use Rattle.words.specs.Laws.{XorLaws, bits_laws};
ghost use Rattle.words.specs.Linear.{wide_third, narrow_second, wide_second, narrow_first, wide_first};

// A kind of word brings its exclusive or and its linear map L. Each kind has a body for its exclusive or: one in the trait
// would ask of every kind that it has the operator `^`.
pub trait Word: Copy {
    ghost zero: { Self };

    // exclusive or
    ghost plus: { Self → Self → Self };

    // L
    ghost linear_map: { Self → Self };

    // what each kind owes
    ghost laws: { XorLaws zero plus };

    fn xor(self, other: Self) -> Self
        ensures { result ≡ plus self other };

    fn linear(self) -> Self
        ensures { result ≡ linear_map self };
}

// The maps of four of the five differ in one number. Over a generic shift a body would bring with it what that operator
// asks and gives, for each kind, and a macro can write no ghost member.

// The word of wide D3.
impl Word for u8 {
    ghost zero = { 0 };

    ghost plus = { bit_xor };

    ghost linear_map = { wide_third };

    ghost laws = { bits_laws };

    fn xor(self, other: u8) -> u8 {
        self ^ other
    }

    fn linear(self) -> u8 {
        (self ^ (self << 1)).rotate_left(1)
    }
}

// The word of narrow D2.
impl Word for u16 {
    ghost zero = { 0 };

    ghost plus = { bit_xor };

    ghost linear_map = { narrow_second };

    ghost laws = { bits_laws };

    fn xor(self, other: u16) -> u16 {
        self ^ other
    }

    fn linear(self) -> u16 {
        (self << 1) ^ (self >> 1)
    }
}

// The word of wide D2.
impl Word for u32 {
    ghost zero = { 0 };

    ghost plus = { bit_xor };

    ghost linear_map = { wide_second };

    ghost laws = { bits_laws };

    fn xor(self, other: u32) -> u32 {
        self ^ other
    }

    fn linear(self) -> u32 {
        (self << 1) ^ (self >> 3)
    }
}

// The word of narrow D1.
impl Word for u64 {
    ghost zero = { 0 };

    ghost plus = { bit_xor };

    ghost linear_map = { narrow_first };

    ghost laws = { bits_laws };

    fn xor(self, other: u64) -> u64 {
        self ^ other
    }

    fn linear(self) -> u64 {
        (self << 1) ^ (self >> 15)
    }
}

// The word of wide D1.
impl Word for u128 {
    ghost zero = { 0 };

    ghost plus = { bit_xor };

    ghost linear_map = { wide_first };

    ghost laws = { bits_laws };

    fn xor(self, other: u128) -> u128 {
        self ^ other
    }

    fn linear(self) -> u128 {
        (self << 1) ^ (self >> 3)
    }
}
