// The three mixers by name, with what tells them apart.
ghost use Rattle.std.specs.Prelude.{◌≡◌, ◌≤◌, Some};
ghost use Rattle.reference.specs.Names.{name_of, mark_of, Reads, unknown_words};

use crate::layer::{Layer, Rule, Spread};
use crate::width::Width;
use std::error::Error;
use std::fmt;
use std::str::FromStr;

#[derive(Clone, Copy, Debug, PartialEq, Eq)]
pub enum Kind {
    Narrow,
    Wide,
    Exchange,
}

// A text that names no mixer.
#[derive(Clone, Copy, Debug, PartialEq, Eq)]
pub struct UnknownKind;

impl fmt::Display for UnknownKind {
    ghost output = { λ _. Some unknown_words };

    fn fmt<W: fmt::Write>(&self, f: &mut fmt::Formatter<W>) -> fmt::Result {
        f.write_str("a line names no mixer")
    }
}

impl Error for UnknownKind {}

// A mixer of six rounds: the constants, in each round a word of 32 bits and the place of its lowest bit in the state,
// and the layers.
#[derive(Clone, Copy, Debug, PartialEq, Eq)]
pub(crate) struct Permutation {
    pub(crate) constants: [(u32, usize); 6],
    pub(crate) layers: [Layer; 3],
}

// Both tables of constants stand as docs/CIPHER.md has them, row by row, and neither is computed from the other.
const NARROW: Permutation = Permutation {
    constants: [
        (0x0f1e2d3b, 0),
        (0x4b5a6978, 64),
        (0x8796a5b4, 128),
        (0xc3d2e1f0, 192),
        (0x2d3c4b5a, 32),
        (0x69788796, 160),
    ],
    layers: [
        Layer {
            width: Width::SixtyFour,
            spread: Spread::Right(15),
            rule: Rule::FourWords,
        },
        Layer {
            width: Width::Sixteen,
            spread: Spread::Right(1),
            rule: Rule::FourWords,
        },
        Layer {
            width: Width::Eight,
            spread: Spread::Right(3),
            rule: Rule::TwoWords,
        },
    ],
};

const WIDE: Permutation = Permutation {
    constants: [
        (0x0f1e2d3b, 0),
        (0x4b5a6978, 128),
        (0x8796a5b4, 256),
        (0xc3d2e1f0, 384),
        (0x2d3c4b5a, 32),
        (0x69788796, 288),
    ],
    layers: [
        Layer {
            width: Width::Full,
            spread: Spread::Right(3),
            rule: Rule::FourWords,
        },
        Layer {
            width: Width::ThirtyTwo,
            spread: Spread::Right(3),
            rule: Rule::FourWords,
        },
        Layer {
            width: Width::Eight,
            spread: Spread::Turned,
            rule: Rule::FourWords,
        },
    ],
};

impl Kind {
    // The bytes of a block.
    pub fn block_len(self) -> usize
        ensures least { 16 ≤ result }
        ensures most { result ≤ 32 }
    {
        match self {
            Kind::Narrow | Kind::Exchange => 16,
            Kind::Wide => 32,
        }
    }

    // The mark is a byte of what is sealed, so it stays a number.
    pub fn mark(self) -> u8
        ensures { result ≡ mark_of self }
    {
        match self {
            Kind::Narrow => 1,
            Kind::Wide => 2,
            Kind::Exchange => 3,
        }
    }

    pub fn name(self) -> &'static str
        ensures { result.now ≡ name_of self }
    {
        match self {
            Kind::Narrow => "narrow",
            Kind::Wide => "wide",
            Kind::Exchange => "exchange",
        }
    }

    // The width of the number of a padding that tells the nonce's length.
    pub(crate) fn nonce_bits(self) -> u32
        ensures { result ≤ 9 }
    {
        match self {
            Kind::Narrow | Kind::Exchange => 8,
            Kind::Wide => 9,
        }
    }

    // What the rounds do; the exchange has none.
    pub(crate) fn permutation(self) -> Option<Permutation> {
        match self {
            Kind::Narrow => Some(NARROW),
            Kind::Wide => Some(WIDE),
            Kind::Exchange => None,
        }
    }
}

impl fmt::Display for Kind {
    ghost output = { λ kind. Some (name_of kind) };

    fn fmt<W: fmt::Write>(&self, f: &mut fmt::Formatter<W>) -> fmt::Result {
        f.write_str(self.name())
    }
}

impl FromStr for Kind {
    type Err = UnknownKind;

    ghost from_str_gives = { Reads };

    fn from_str(name: &str) -> Result<Kind, UnknownKind> {
        match name {
            "narrow" => Ok(Kind::Narrow),
            "wide" => Ok(Kind::Wide),
            "exchange" => Ok(Kind::Exchange),
            _ => Err(UnknownKind),
        }
    }
}
