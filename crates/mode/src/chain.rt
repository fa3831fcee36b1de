// The chain of mixings that data and message are taken through, block by block.
ghost use Rattle.std.specs.Prelude.{◌≡◌, ◌<◌};
ghost use Rattle.mixers.specs.View.{view};
ghost use Rattle.mode.specs.Padding.{pad_data};
ghost use Rattle.mode.specs.Sealing.{tag_at, data_state, data_prev};
ghost use Rattle.mode.specs.Steps.{advanced, seal_step, open_step, all_out, all_state, all_prev};

use crate::padding::pad_rest;
use crate::setting::Admitted;
use crate::way::Way;
use mixers::{Block, Mixer, State};

// Where the chain stands: the state x'‖x, and the block before the next one, which is the nonce's before any other.
// The mixer is passed to each step: as a field, each step would have to say that it stays. Clauses say state and block
// apart, since a definition's record of both holds lists, and this struct holds blocks.
#[derive(Clone, Copy)]
pub(crate) struct Chain<const B: usize> {
    pub(crate) state: State<B>,
    pub(crate) prev: Block<B>,
}

impl<const B: usize> Chain<B> {
    // Mixes the state, and takes ⊕ of its lower block with the block before.
    fn advance<M: Mixer<B>>(&mut self, mixer: &M)
        ensures state { view self.new.state ≡ advanced (M.mixing mixer.now) (view self.old.state) self.old.prev.bytes }
        ensures prev { self.new.prev ≡ self.old.prev }
    {
        mixer.mix(&mut self.state);
        self.state.lower.xor(&self.prev);
    }

    // Takes in a block of data or message; its ciphertext is then the upper block of the state.
    pub(crate) fn absorb<M: Mixer<B>>(&mut self, mixer: &M, block: &Block<B>)
        ensures state { view self.new.state ≡ (seal_step (M.mixing mixer.now) (view self.old.state) self.old.prev.bytes block.now.bytes).state }
        ensures prev { self.new.prev.bytes ≡ block.now.bytes }
    {
        self.advance(mixer);
        self.state.upper.xor(block);
        self.prev = *block;
    }

    // Takes in a block of ciphertext; its message block is then the block before.
    pub(crate) fn recover<M: Mixer<B>>(&mut self, mixer: &M, block: &Block<B>)
        ensures state { view self.new.state ≡ (open_step (M.mixing mixer.now) (view self.old.state) self.old.prev.bytes block.now.bytes).state }
        ensures prev { self.new.prev.bytes ≡ (open_step (M.mixing mixer.now) (view self.old.state) self.old.prev.bytes block.now.bytes).prev }
    {
        self.advance(mixer);
        let mut message = self.state.upper;
        message.xor(block);
        self.state.upper = *block;
        self.prev = message;
    }

    // Takes in the whole blocks of `text`, and writes in their places what they become.
    pub(crate) fn turn_all<W: Way<B>, M: Mixer<B>>(&mut self, mixer: &M, text: &mut [u8])
        requires { 0 < B }
        ensures out { text.new ≡ all_out (W.step (M.mixing mixer.now)) B (view self.old.state) self.old.prev.bytes text.old }
        ensures state { view self.new.state ≡ all_state (W.step (M.mixing mixer.now)) B (view self.old.state) self.old.prev.bytes text.old }
        ensures prev { self.new.prev.bytes ≡ all_prev (W.step (M.mixing mixer.now)) B (view self.old.state) self.old.prev.bytes text.old }
    {
        // by index: a proof knows nothing of what is written through `chunks_exact_mut`
        for i in 0..text.len() / B {
            let place = &mut text[i * B..i * B + B];
            let turned = W::turn(self, mixer, &Block::of(place));
            place.copy_from_slice(&turned.bytes);
        }
    }

    // Takes in the associated data, padded.
    fn absorb_data<M: Mixer<B>>(&mut self, mixer: &M, ad: &[u8])
        requires { 0 < B }
        ensures state { view self.new.state ≡ all_state (seal_step (M.mixing mixer.now)) B (view self.old.state) self.old.prev.bytes (pad_data B ad.now) }
        ensures prev { self.new.prev.bytes ≡ all_prev (seal_step (M.mixing mixer.now)) B (view self.old.state) self.old.prev.bytes (pad_data B ad.now) }
    {
        if !ad.is_empty() {
            let blocks = ad.chunks_exact(B);
            let last = pad_rest(blocks.remainder());
            for block in blocks {
                self.absorb(mixer, &Block::of(block));
            }
            self.absorb(mixer, &last);
        }
    }

    // The chain once key, nonce and data are in.
    pub(crate) fn begin<M: Mixer<B>>(mixer: &M, under: &Admitted<B>) -> Self
        ensures state { let s = under.now.setting in view result.state ≡ data_state (M.mixing mixer.now) B s.key.now s.nonce.now s.ad.now }
        ensures prev { let s = under.now.setting in result.prev.bytes ≡ data_prev (M.mixing mixer.now) B s.key.now s.nonce.now s.ad.now }
    {
        let state = State {
            upper: Block::of(under.setting.nonce),
            lower: Block::of(under.setting.key),
        };
        let mut chain = Chain {
            state,
            prev: state.upper,
        };
        chain.absorb_data(mixer, under.setting.ad);
        chain
    }

    // The tag, after the last block.
    pub(crate) fn tag<M: Mixer<B>>(&self, mixer: &M, under: &Admitted<B>) -> Block<B>
        ensures { result.bytes ≡ tag_at (M.mixing mixer.now) under.now.setting.key.now (view self.now.state) self.now.prev.bytes }
    {
        let mut state = self.state;
        mixer.mix(&mut state);
        let mut tag = state.lower;
        tag.xor(&self.prev);
        tag.xor(&Block::of(under.setting.key));
        tag
    }
}
