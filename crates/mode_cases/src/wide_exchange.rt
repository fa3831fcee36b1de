// The exchange on blocks of 32 bytes: a mixer that only the tests have, to run the mode at that width. `Wide` doesn't
// serve: this mixer comes from outside the library, and mixing costs nothing over 65,536 bytes.
ghost use Rattle.mixers.specs.Exchange.{exchanged};
ghost use Rattle.mode_cases.specs.WideExchange.{wide_lawful};

use mixers::{Mixer, State};
use std::mem::swap;

#[derive(Clone, Copy, Debug, PartialEq, Eq)]
pub struct WideExchange;

impl Mixer<32> for WideExchange {
    ghost mark_byte = { λ _. 255 };

    ghost mixing = { λ _. exchanged };

    ghost laws = { λ _. wide_lawful };

    fn mix(&self, state: &mut State<32>) {
        swap(&mut state.upper, &mut state.lower);
    }

    fn mark(&self) -> u8 {
        255
    }
}
