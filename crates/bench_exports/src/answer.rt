// Mixing, sealing and opening under any mixer, and what the last two answer to C, which knows no `Result`.
ghost use Rattle.std.specs.Prelude.{◌≡◌, ◌≤◌, length};
ghost use Rattle.mixers.specs.Halves.{halves};
ghost use Rattle.mode.specs.Opening.{open_answer, open_leaves};
ghost use Rattle.mode.specs.Sealing.{seal_answer, seal_leaves};
ghost use Rattle.bench_exports.specs.Answers.{code_in, length_in, all_in};

use mixers::{Block, Mixer, State};
use mode::{Fault, Setting, open, seal};

// The code of a refusal and the length 0, or the code 0 and a length.
#[repr(C)]
pub struct Answer {
    pub code: u8,
    pub length: usize,
}

impl From<Result<usize, Fault>> for Answer {
    ghost from_gives = { λ r answer. (answer.code ≡ code_in r) × (answer.length ≡ length_in r) };

    fn from(answered: Result<usize, Fault>) -> Answer {
        match answered {
            Ok(length) => Answer { code: 0, length },
            Err(fault) => Answer {
                code: fault.code(),
                length: 0,
            },
        }
    }
}

// `Mixer::mix`, on the state of these two blocks.
pub(crate) fn mix_under<const B: usize, M: Mixer<B>>(
    mixer: &M,
    lower: &mut [u8; B],
    upper: &mut [u8; B],
)
    requires few { B ≤ 32 }
    ensures { halves upper.new lower.new ≡ M.mixing mixer.now (halves upper.old lower.old) }
{
    let mut mixed = State {
        upper: Block { bytes: *upper },
        lower: Block { bytes: *lower },
    };
    mixer.mix(&mut mixed);
    *upper = mixed.upper.bytes;
    *lower = mixed.lower.bytes;
}

// `mode::seal`, with the length of ciphertext and tag for its answer.
pub(crate) fn seal_under<const B: usize, M: Mixer<B>>(
    mixer: &M,
    setting: Setting,
    message: &[u8],
    out: &mut [u8],
) -> Answer
    ensures code { let s = setting.entry in result.code ≡ code_in (seal_answer B s.key.now s.nonce.now s.ad.now message.now out.old) }
    ensures length { let s = setting.entry in result.length ≡ length_in (all_in (seal_answer B s.key.now s.nonce.now s.ad.now message.now out.old)) }
    ensures buffer { let s = setting.entry in out.new ≡ seal_leaves (M.mixing mixer.now) B s.key.now s.nonce.now s.ad.now message.now out.old }
{
    seal(mixer, setting, message, out)
        .map(|(_, length)| length)
        .into()
}

// `mode::open`, with the length of the message for its answer.
pub(crate) fn open_under<const B: usize, M: Mixer<B>>(
    mixer: &M,
    setting: Setting,
    cipher: &[u8],
    tag: &[u8],
    text: &mut [u8],
) -> Answer
    ensures code { let s = setting.entry in result.code ≡ code_in (open_answer (M.mixing mixer.now) B s.key.now s.nonce.now s.ad.now cipher.now tag.now text.old) }
    ensures length { let s = setting.entry in result.length ≡ length_in (open_answer (M.mixing mixer.now) B s.key.now s.nonce.now s.ad.now cipher.now tag.now text.old) }
    ensures buffer { let s = setting.entry in text.new ≡ open_leaves (M.mixing mixer.now) B s.key.now s.nonce.now s.ad.now cipher.now tag.now text.old }
{
    open(mixer, setting, cipher, tag, text).into()
}
