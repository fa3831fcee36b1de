// The narrow mixer: Artemia on blocks of 16 bytes.
ghost use Rattle.mixers.specs.Permutations.{narrow_mixing, narrow_mark, narrow_lawful};

use crate::mixer::Mixer;
use crate::state::State;
use crate::words_of::permute_state;

#[derive(Clone, Copy, Debug, PartialEq, Eq)]
pub struct Narrow;

impl Mixer<16> for Narrow {
    ghost mark_byte = { λ _. narrow_mark };

    ghost mixing = { λ _. narrow_mixing };

    ghost laws = { λ _. narrow_lawful };

    fn mix(&self, state: &mut State<16>) {
        permute_state::<16, u64>(state);
    }

    fn mark(&self) -> u8 {
        1
    }
}
