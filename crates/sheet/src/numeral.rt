// The numbers that stand in columns: `u32` is written in digits alone, `i32` with a minus before them below zero.
ghost use Rattle.std.specs.Prelude.{◌≡◌, ◌≤◌, List, ℕ, length, refl};
ghost use Rattle.std.specs.Ordering.{partial_le};
ghost use Rattle.std.specs.Cmp.Rules.{comparing};
ghost use Rattle.std.proofs.Common.{rules};
ghost use Rattle.sheet.specs.Columns.{Numerals, plain, signed};

use itoa::Integer;

pub(crate) trait Numeral: Integer + PartialOrd {
    // how texts read as numbers, how numbers are written, and their order
    ghost numerals: { Numerals Self };

    // The number that the whole text writes.
    fn read(text: &[u8]) -> Option<Self>
        requires { length text.now ≤ 9 }
        ensures { result ≡ numerals.reads text.now };

    // `<=` is that order.
    ghost orders: { (a b : Self) → partial_le Self.partial_cmp a b ≡ numerals.at_most a b };

    // What is printed is what is written.
    ghost prints: { (n : Self) → Self.text n ≡ numerals.text n };
}

impl Numeral for u32 {
    ghost numerals = { plain };

    ghost orders = { Prim.search (comparing, rules) };

    ghost prints = { λ n. refl };

    fn read(digits: &[u8]) -> Option<u32> {
        // `parse` would take a plus and zeros in front.
        if let [b'+', ..] | [b'0', _, ..] = digits {
            return None;
        }
        std::str::from_utf8(digits).ok()?.parse().ok()
    }
}

impl Numeral for i32 {
    ghost numerals = { signed };

    ghost orders = { Prim.search (comparing, rules) };

    ghost prints = { λ n. refl };

    fn read(text: &[u8]) -> Option<i32> {
        let [b'-', digits @ ..] = text else {
            // Nine digits fit.
            return Some(u32::read(text)? as i32);
        };
        match u32::read(digits)? {
            0 => None,
            n => Some(-(n as i32)),
        }
    }
}
