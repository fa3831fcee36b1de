// The proved library, by the name of the mixer.
ghost use Rattle.std.specs.Prelude.{◌≤◌};

use crate::answer::Answer;
use crate::bytes::{cut, joined};
use crate::sides::Side;
use mixers::{Block, Exchange, Mixer, Narrow, State, Wide};
use mode::{Fault, open, seal};
use reference::{Kind, Setting};
use std::alloc::{AllocError, Global};

pub(crate) const KINDS: [Kind; 3] = [Kind::Narrow, Kind::Wide, Kind::Exchange];

// More than padding and tag take.
const ROOM: usize = 96;

// What `$job` is with the mixer of this name as `$mixer`. A closure for the job can't be generic over the block length,
// and behind a `dyn Mixer<B>` nothing is proved of a trait with a parameter, nor may a function hand one out.
macro_rules! with_mixer {
    ($kind:expr, $mixer:ident => $job:expr) => {
        match $kind {
            Kind::Narrow => {
                let $mixer = Narrow;
                $job
            }
            Kind::Wide => {
                let $mixer = Wide;
                $job
            }
            Kind::Exchange => {
                let $mixer = Exchange;
                $job
            }
        }
    };
}

// The state after mixing; its bytes are those of the lower block and then of the upper.
fn mix_with<const B: usize, M: Mixer<B>>(
    heap: Global,
    mixer: &M,
    state: &[u8],
) -> Result<Vec<u8>, AllocError>
    requires { B ≤ 32 }
{
    let (lower, upper) = cut(state, B);
    let mut blocks = State {
        upper: Block::of(upper),
        lower: Block::of(lower),
    };
    mixer.mix(&mut blocks);
    joined(heap, &blocks.lower.bytes, &blocks.upper.bytes)
}

// What the library takes of a setting, beside the mixer. Neither type is of this crate, so that no `From` can stand here.
fn under<'a>(setting: &Setting<'a>) -> mode::Setting<'a> {
    mode::Setting {
        key: setting.key,
        nonce: setting.nonce,
        ad: setting.ad,
    }
}

pub(crate) fn block_len(kind: Kind) -> usize {
    with_mixer!(kind, mixer => mixer.block_len())
}

pub(crate) fn mark(kind: Kind) -> u8 {
    with_mixer!(kind, mixer => mixer.mark())
}

// The library, with the allocator that its answers come from.
#[derive(Clone, Copy)]
pub(crate) struct Library {
    heap: Global,
}

impl Library {
    pub(crate) fn new(heap: Global) -> Library {
        Library { heap }
    }
}

// As much of a buffer as a call answers that it wrote.
fn front_of(mut buffer: Vec<u8>, answer: Result<usize, Fault>) -> Answer {
    let len = answer?;
    buffer.truncate(len);
    Ok(buffer)
}

impl Side for Library {
    fn mixed(&self, kind: Kind, state: &[u8]) -> Result<Vec<u8>, AllocError> {
        with_mixer!(kind, mixer => mix_with(self.heap, &mixer, state))
    }

    fn sealed(&self, setting: &Setting, message: &[u8]) -> Result<Answer, AllocError> {
        let mut out = vec![in self.heap; 0u8; message.len().saturating_add(ROOM)]?;
        let answer =
            with_mixer!(setting.kind, mixer => seal(&mixer, under(setting), message, &mut out));
        Ok(front_of(out, answer.map(|(_cipher, all)| all)))
    }

    fn opened(&self, setting: &Setting, cipher: &[u8], tag: &[u8]) -> Result<Answer, AllocError> {
        let mut text = vec![in self.heap; 0u8; cipher.len()]?;
        let answer =
            with_mixer!(setting.kind, mixer => open(&mixer, under(setting), cipher, tag, &mut text));
        Ok(front_of(text, answer))
    }
}
