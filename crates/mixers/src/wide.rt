// The wide mixer: Artemia on blocks of 32 bytes.
ghost use Rattle.mixers.specs.Permutations.{wide_mixing, wide_mark, wide_lawful};

use crate::mixer::Mixer;
use crate::state::State;
use crate::words_of::permute_state;

#[derive(Clone, Copy, Debug, PartialEq, Eq)]
pub struct Wide;

impl Mixer<32> for Wide {
    ghost mark_byte = { λ _. wide_mark };

    ghost mixing = { λ _. wide_mixing };

    ghost laws = { λ _. wide_lawful };

    fn mix(&self, state: &mut State<32>) {
        permute_state::<32, u128>(state);
    }

    fn mark(&self) -> u8 {
        2
    }
}
