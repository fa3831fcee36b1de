// The narrow mixer for C, and sealing and opening under it.
ghost use Rattle.std.specs.Prelude.{◌≡◌};
ghost use Rattle.mixers.specs.Halves.{halves};
ghost use Rattle.mixers.specs.Permutations.{narrow_mixing};
ghost use Rattle.mode.specs.Opening.{open_answer, open_leaves};
ghost use Rattle.mode.specs.Sealing.{seal_answer, seal_leaves};
ghost use Rattle.bench_exports.specs.Answers.{code_in, length_in, all_in};

use crate::answer::{Answer, mix_under, open_under, seal_under};
use mixers::Narrow;
use mode::Setting;

// A state as C lays it out: its bytes from the lowest on. C takes no struct with a parameter, so each width has its own.
// Nor has it functions with one, or slices in a struct: each width has its own, and key, nonce and data come one by one.
#[repr(C)]
pub struct NarrowState {
    pub lower: [u8; 16],
    pub upper: [u8; 16],
}

// Mixes the state.
#[unsafe(no_mangle)]
pub extern "C" fn nirgusel_narrow_mix(state: &mut NarrowState)
    ensures { halves state.new.upper state.new.lower ≡ narrow_mixing (halves state.old.upper state.old.lower) }
{
    mix_under(&Narrow, &mut state.lower, &mut state.upper);
}

// Seals; the length is that of ciphertext and tag.
#[unsafe(no_mangle)]
pub extern "C" fn nirgusel_narrow_seal(
    key: &[u8],
    nonce: &[u8],
    ad: &[u8],
    message: &[u8],
    out: &mut [u8],
) -> Answer
    ensures code { result.code ≡ code_in (seal_answer 16 key.now nonce.now ad.now message.now out.old) }
    ensures length { result.length ≡ length_in (all_in (seal_answer 16 key.now nonce.now ad.now message.now out.old)) }
    ensures buffer { out.new ≡ seal_leaves narrow_mixing 16 key.now nonce.now ad.now message.now out.old }
{
    seal_under(&Narrow, Setting { key, nonce, ad }, message, out)
}

// Opens; the length is that of the message.
#[unsafe(no_mangle)]
pub extern "C" fn nirgusel_narrow_open(
    key: &[u8],
    nonce: &[u8],
    ad: &[u8],
    cipher: &[u8],
    tag: &[u8],
    text: &mut [u8],
) -> Answer
    ensures code { result.code ≡ code_in (open_answer narrow_mixing 16 key.now nonce.now ad.now cipher.now tag.now text.old) }
    ensures length { result.length ≡ length_in (open_answer narrow_mixing 16 key.now nonce.now ad.now cipher.now tag.now text.old) }
    ensures buffer { text.new ≡ open_leaves narrow_mixing 16 key.now nonce.now ad.now cipher.now tag.now text.old }
{
    open_under(&Narrow, Setting { key, nonce, ad }, cipher, tag, text)
}
