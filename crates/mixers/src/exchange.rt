// The exchange: the two blocks of a state change places. It hides nothing, and serves the factory bench with public keys.
ghost use Rattle.mixers.specs.Exchange.{exchanged, exchange_mark, exchange_lawful};

use crate::mixer::Mixer;
use crate::state::State;
use std::mem::swap;

#[derive(Clone, Copy, Debug, PartialEq, Eq)]
pub struct Exchange;

impl Mixer<16> for Exchange {
    ghost mark_byte = { λ _. exchange_mark };

    ghost mixing = { λ _. exchanged };

    ghost laws = { λ _. exchange_lawful };

    fn mix(&self, state: &mut State<16>) {
        swap(&mut state.upper, &mut state.lower);
    }

    fn mark(&self) -> u8 {
        3
    }
}
