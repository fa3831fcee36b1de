// The rounds, once for both widths.
ghost use Rattle.std.specs.Prelude.{◌≡◌, map};
ghost use Rattle.artemia.specs.Artemia.{added, permuted, round as round_of, rounds as rounds_of};
ghost use Rattle.artemia.specs.Lanes.{laid, constant_of};

use crate::lane::Lane;
use words::Group;

// The constant of each round, as the 64 low bits of its four words: these are the same at both widths. Rows of numbers,
// which a reader can lay beside the table of docs/CIPHER.md.
const CONSTANTS: [[u64; 4]; 6] = [
    [0x0f1e2d3b, 0, 0, 0],
    [0, 0x4b5a6978, 0, 0],
    [0, 0, 0x8796a5b4, 0],
    [0, 0, 0, 0xc3d2e1f0],
    [0x2d3c4b5a_00000000, 0, 0, 0],
    [0, 0, 0x69788796_00000000, 0],
];

// The permutation that the words serve: of 32 bytes at `u64`, the narrow one, and of 64 at `u128`, the wide one.
#[tactic(auto, unfolding(crate::specs::Artemia::permuted))]
pub fn permute<W: Lane>(words: Group<W>) -> Group<W>
    ensures { laid W.held result ≡ permuted W.kind (laid W.held words) }
{
    rounds(words, &CONSTANTS)
}

// One round for each constant.
#[tactic(auto, unfolding(crate::specs::Artemia::rounds))]
fn rounds<W: Lane>(x: Group<W>, constants: &[[u64; 4]]) -> Group<W>
    ensures { laid W.held result ≡ rounds_of W.kind (map (constant_of W.kind.first_bytes) constants.now) (laid W.held x) }
{
    let mut state = x;
    for c in constants {
        state = round(state, *c);
    }
    state
}

fn round<W: Lane>(x: Group<W>, constant: [u64; 4]) -> Group<W>
    ensures { laid W.held result ≡ round_of W.kind (constant_of W.kind.first_bytes constant) (laid W.held x) }
{
    let spread = W::spread(add(x, constant));
    spread.map(Lane::finish)
}

// Exclusive or with a constant.
fn add<W: Lane>(x: Group<W>, constant: [u64; 4]) -> Group<W>
    ensures { laid W.held result ≡ added (constant_of W.kind.first_bytes constant) (laid W.held x) }
{
    Group {
        x0: x.x0.add_low(constant[0]),
        x1: x.x1.add_low(constant[1]),
        x2: x.x2.add_low(constant[2]),
        x3: x.x3.add_low(constant[3]),
    }
}
