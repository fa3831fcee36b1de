// The two directions of the mode.
ghost use Rattle.std.specs.Prelude.{◌≡◌};
ghost use Rattle.mixers.specs.Halves.{Halves};
ghost use Rattle.mixers.specs.View.{view};
ghost use Rattle.mode.specs.Steps.{Step, seal_step, open_step};

use crate::chain::Chain;
use mixers::{Block, Mixer};

// What the chain does with each block of a text.
pub(crate) trait Way<const B: usize> {
    // the step, over a mixer's function
    ghost step: { (Halves → Halves) → Step };

    // Takes a block in, and answers the block that is written in its place.
    fn turn<M: Mixer<B>>(chain: &mut Chain<B>, mixer: &M, block: &Block<B>) -> Block<B>
        ensures state { view chain.new.state ≡ (step (M.mixing mixer.now) (view chain.old.state) chain.old.prev.bytes block.now.bytes).state }
        ensures prev { chain.new.prev.bytes ≡ (step (M.mixing mixer.now) (view chain.old.state) chain.old.prev.bytes block.now.bytes).prev }
        ensures block { result.bytes ≡ (step (M.mixing mixer.now) (view chain.old.state) chain.old.prev.bytes block.now.bytes).block };
}

// From message to ciphertext.
pub(crate) struct Sealing;

impl<const B: usize> Way<B> for Sealing {
    ghost step = { seal_step };

    fn turn<M: Mixer<B>>(chain: &mut Chain<B>, mixer: &M, block: &Block<B>) -> Block<B> {
        chain.absorb(mixer, block);
        chain.state.upper
    }
}

// From ciphertext to message.
pub(crate) struct Opening;

impl<const B: usize> Way<B> for Opening {
    ghost step = { open_step };

    fn turn<M: Mixer<B>>(chain: &mut Chain<B>, mixer: &M, block: &Block<B>) -> Block<B> {
        chain.recover(mixer, block);
        chain.prev
    }
}
