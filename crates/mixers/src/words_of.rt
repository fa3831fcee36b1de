// A state's blocks as words, the lowest byte first, and Artemia's permutation of them.
ghost use Rattle.std.specs.Prelude.{◌≡◌, ◌+◌, ◌++◌, length, refl};
ghost use Rattle.artemia.specs.Artemia.{permuted};
ghost use Rattle.artemia.specs.Lanes.{laid};
ghost use Rattle.mixers.specs.Permutations.{on_halves};
ghost use Rattle.mixers.specs.View.{view};

use crate::state::State;
use artemia::{Lane, permute};
use words::Group;

// A word of D1, two of which make a block of `B` bytes. The standard conversions belong to no trait, so each width names
// its own.
pub(crate) trait Stored<const B: usize>: Lane {
    // The word of these bytes.
    fn read(bytes: &[u8]) -> Self
        requires { length bytes.now ≡ Self.kind.first_bytes }
        ensures { Self.held result ≡ bytes.now };

    // Writes its bytes.
    fn write(self, bytes: &mut [u8])
        requires { length bytes.old ≡ Self.kind.first_bytes }
        ensures { bytes.new ≡ Self.held self };

    ghost two: { Self.kind.first_bytes + Self.kind.first_bytes ≡ B };
}

impl Stored<16> for u64 {
    ghost two = { refl };

    fn read(bytes: &[u8]) -> u64 {
        u64::from_le_bytes(bytes.try_into().unwrap())
    }

    fn write(self, bytes: &mut [u8]) {
        bytes.copy_from_slice(&self.to_le_bytes());
    }
}

impl Stored<32> for u128 {
    ghost two = { refl };

    fn read(bytes: &[u8]) -> u128 {
        u128::from_le_bytes(bytes.try_into().unwrap())
    }

    // `to_le_bytes` of the whole is slow: the mixer takes 4 per cent longer with it.
    fn write(self, bytes: &mut [u8]) {
        let (low, high) = bytes.split_at_mut(8);
        low.copy_from_slice(&((self & 0xffff_ffff_ffff_ffff) as u64).to_le_bytes());
        high.copy_from_slice(&((self >> 64) as u64).to_le_bytes());
    }
}

// The permutation that the words `W` serve, on a state whose blocks are two words each.
pub(crate) fn permute_state<const B: usize, W: Stored<B>>(state: &mut State<B>)
    ensures { view state.new ≡ on_halves B (permuted W.kind) (view state.old) }
{
    let y = permute(load::<B, W>(state));
    store(state, y);
}

// The four words of a state, the lowest first.
#[tactic(auto, unfolding(artemia::specs::Lanes::laid))]
fn load<const B: usize, W: Stored<B>>(state: &State<B>) -> Group<W>
    ensures { laid W.held result ≡ state.now.lower.bytes ++ state.now.upper.bytes }
{
    let (x0, x1) = read_pair(&state.lower.bytes);
    let (x2, x3) = read_pair(&state.upper.bytes);
    Group { x0, x1, x2, x3 }
}

// Writes the four words of a state, the lowest first.
fn store<const B: usize, W: Stored<B>>(state: &mut State<B>, y: Group<W>)
    ensures upper { state.new.upper.bytes ≡ W.held y.x2 ++ W.held y.x3 }
    ensures lower { state.new.lower.bytes ≡ W.held y.x0 ++ W.held y.x1 }
{
    write_pair(&mut state.upper.bytes, y.x2, y.x3);
    write_pair(&mut state.lower.bytes, y.x0, y.x1);
}

// The two words of a block, the lower first.
fn read_pair<const B: usize, W: Stored<B>>(bytes: &[u8; B]) -> (W, W)
    ensures { W.held result.0 ++ W.held result.1 ≡ bytes.now }
{
    let (low, high) = bytes.split_at(B / 2);
    (W::read(low), W::read(high))
}

fn write_pair<const B: usize, W: Stored<B>>(bytes: &mut [u8; B], low: W, high: W)
    ensures { bytes.new ≡ W.held low ++ W.held high }
{
    let (front, back) = bytes.split_at_mut(B / 2);
    low.write(front);
    high.write(back);
}
